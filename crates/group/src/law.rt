// The law of the queue: each function's contract is a theorem, and the function does nothing.
ghost use Rattle.group.specs.Determined.{Determined};
ghost use Rattle.group.specs.Law.{Law, Besides, Always};
ghost use Rattle.group.specs.Stories.{Stories};
ghost use Rattle.group.specs.Laws.{AppendLaws, HearLaws};

/// Every history that a new group can live, over every memory and every decision service, obeys the law of the queue:
/// agreement, recovery, validity and delivery.
pub fn law_of_the_queue_holds()
    ensures { Always Law }
{}

/// What holds of every such history besides: what a bed showed it shows whenever it runs again, enough proposals bring a
/// decision, no kept or decided bytes are ever faulty, and no list outgrows its room.
pub fn besides_the_law()
    ensures { Always Besides }
{}

/// In every world that a new group can reach, two outcomes of one call that agree on what is kept and decided agree on
/// everything: nothing else is free.
pub fn calls_are_determined()
    ensures { Determined }
{}

/// A queue keeps what it has when a batch is appended, takes each new identity of the batch once, and nothing else.
pub fn append_laws_hold()
    ensures { AppendLaws }
{}

/// A set that hears a packet stays sound, and the two counts that the call answers are true.
pub fn hear_laws_hold()
    ensures { HearLaws }
{}

/// The law speaks of something: a crash in mid-write with the batch lost, kept and then served; a bed that starts late; two
/// beds with different proposals; and a job that all propose.
pub fn stories_can_be_lived()
    ensures { Stories }
{}
