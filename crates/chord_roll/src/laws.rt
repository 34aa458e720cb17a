//! What the rule of the roll says of who is at work, at any moment between two steps: functions whose contracts are the laws.
ghost use Rattle.chord_roll.specs.Laws.{NobodyCounts, OneCounts, AllAreTold, OneTold};

/// Where the number on the roll is 0, no card counts; where it is not, one does.
pub fn those_at_work()
    ensures nobody { NobodyCounts }
    ensures one { OneCounts }
{}

/// Once a worker has told all to stop, the roll says so; and it says so only where one has.
pub fn those_that_stop()
    ensures told { AllAreTold }
    ensures one { OneTold }
{}
