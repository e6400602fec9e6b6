//! Laws of the definitions: functions without code, whose contracts are proved of every value.

ghost use Rattle.sip_answer.specs.Laws.{AgreesAsRecorded, OwnTextAgrees};

/// The text that is written of an answer agrees with it, with a sequence digit or without one.
pub fn own_text_agrees()
    ensures { OwnTextAgrees }
{}

/// If a response differs in no word from an answer, the answer agrees with what the response says
/// was done.
pub fn agrees_as_recorded()
    ensures { AgreesAsRecorded }
{}
