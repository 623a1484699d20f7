//! Laws of the definitions. A law is the contract of a function that does nothing.
ghost use Rattle.answer_laws.specs.Answers.{AnswerIsOne, RoomLeavesOne, UnaskedIsFree};

/// Words, and what reading the check file and the input gave, come to one answer, which is written whole where the streams have
/// room. What isn't asked for doesn't count.
pub fn law_of_answers()
    ensures one { AnswerIsOne }
    ensures unasked { UnaskedIsFree }
    ensures room { RoomLeavesOne }
{}
