// What holds of every list of carried requests, over every kind below.
ghost use Rattle.once.specs.Writes.{EntriesAreLastWrites, NumbersGrow, NoWriteTwice, RepeatsAreAnswered};

use protocol::kind::Kind;

// However often a write is asked for, it counts once and has one answer.
pub fn a_write_counts_once<K: Kind>()
    ensures an_entry_is_the_hubs_last_write { EntriesAreLastWrites K.Kind.first K.Kind.applies }
    ensures a_hubs_numbers_grow { NumbersGrow K.Kind.applies }
    ensures no_write_stands_twice { NoWriteTwice K.Kind.applies }
    ensures a_repeated_write_has_its_first_answer { RepeatsAreAnswered K.Kind.applies }
{}
