//! A simulation of the transfer layer: one side sends, the other receives, and the link between them loses,
//! doubles and reorders.
mod link;
mod messages;
mod receiver;
mod sender;
mod simulation;
