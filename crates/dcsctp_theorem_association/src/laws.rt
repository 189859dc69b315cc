//! Theorems on the machine.

ghost use Rattle.dcsctp_theorem_association.specs.Agreement.{SidesAgree, SidesRunAlone};
ghost use Rattle.dcsctp_theorem_association.specs.InTurn.{HandshakeConnects};
ghost use Rattle.dcsctp_theorem_association.specs.OneSide.{AnswersEndRequests, EffectsInPlace, EffectsMean, EndsOnce, PastIsState};

use dcsctp_spec_runs::answer_keeps_agreement;

/// Each effect of a side is in its order, whatever packets it is handed.
pub fn effects_in_place()
    ensures { EffectsInPlace }
{}

/// A turn that ends the association adds one end event, and no other turn adds one.
pub fn ends_once()
    ensures { EndsOnce }
{}

/// What the effects of a turn say of the association after it.
pub fn effects_mean()
    ensures { EffectsMean }
{}

/// The association is the one that the past leaves, with its numbers.
pub fn past_is_state()
    ensures { PastIsState }
{}

/// A side's request to reset streams ends by an answer with its number (RFC 6525, section 5.2.7).
pub fn answers_end_requests()
    ensures { AnswersEndRequests }
{}

/// Each side of a run is a run of that side alone, whatever packets it is handed.
pub fn sides_run_alone()
    ensures { SidesRunAlone }
{}

/// Two sides agree, over every schedule.
pub fn sides_agree()
    ensures { SidesAgree }
{
    answer_keeps_agreement();
    effects_in_place();
    sides_run_alone();
}

/// The four packets of the handshake, delivered in turn, connect two fresh sides (RFC 9260, section 5.1).
pub fn handshake_connects()
    ensures { HandshakeConnects }
{
    answer_keeps_agreement();
}
