//! What a caller may rely on of the definitions. The functions do nothing: their contracts are the laws.

ghost use Rattle.dcsctp_channel_laws.specs.Handovers.{RestoredAreOrderly, HandedOverAreGone, HandedOverGoOn};

/// Whatever a snapshot says, a socket that is restored from it has each channel in one place, under a name that was
/// given. So what holds of all later calls holds of it, too: names are new, and each channel ends once.
pub fn restored_channels_are_orderly()
    ensures { RestoredAreOrderly }
{}

/// What is handed over isn't lost.
///
/// - `gone`: where the channels were, each is closed from then on.
/// - `restored`: a new socket is restored from each snapshot that was handed over, if it may be by its options. There
///   each channel lasts that lasted, and no name is given that was given before.
pub fn channels_go_on()
    ensures gone { HandedOverAreGone }
    ensures restored { HandedOverGoOn }
{}
