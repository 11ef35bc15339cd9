// The plans of a query: it goes on, or it answers.
// A query changes nothing but its own record.
ghost use Rattle.std.specs.Prelude.{◌≡◌};
ghost use Rattle.trie.specs.Leaf.{keep, goes_on};
ghost use Rattle.trie.specs.Asking.{answers};

use trie::{Answer, Next, Phase, Plan, Worker};

pub(crate) fn go_on(p: Phase) -> Plan
    ensures { Ok result ≡ keep (goes_on p) }
{
    Plan::Keep(Next::On(Worker { phase: p }))
}

pub(crate) fn answer(a: Answer) -> Plan
    ensures { Ok result ≡ answers a }
{
    Plan::Keep(Next::Done(a))
}
