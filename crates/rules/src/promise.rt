// The promise over every run, for every kind of reading and every judge.
ghost use Rattle.rules.specs.Promise.{Promise};

use reading::kind::Kind;

// Nothing is done: what matters is the contract, which says that the promise holds.
pub fn promise<R: Kind>()
    ensures { Promise R.Kind.stands }
{}
