// Open fills the first words of both tables and leaves the rest untouched.
// It reads no old contents, so that it can begin a new history on any tables that are long enough.
ghost use Rattle.std.specs.Prelude.{◌≡◌, ◌<◌, ℕ};
ghost use Rattle.trie.specs.Values.{accepted_of};
ghost use Rattle.trie.specs.Opening.{Opened, filled, first_word, open_tables_of};

use tables::{judge_tables, put};
use trie::{Refusal, VERSION_WORDS};

fn first_word(n: u64, i: u64) -> u64
    ensures { result ≡ first_word n i }
{
    let x = i / VERSION_WORDS + 1;
    let word = i % VERSION_WORDS;
    if n <= x {
        return 0;
    }
    if word < 2 { 2 * x + word } else { 0 }
}

// Sets the words below `end` to their first values, and leaves the rest.
#[tactic(auto, using(crate::proofs::Fills::filled_next), unfolding(trie::specs::Opening::filled))]
fn fill<F: Fn(u64) -> u64>(table: &mut [u64], end: u64, first: F)
    requires { (i : ℕ) → i < end → F.pre first i }
    ensures { (f : ℕ → ℕ) → ((i x : ℕ) → i < end → F.post first i x → x ≡ f i) → table.new ≡ filled f end table.old }
{
    for i in 0..end {
        put(table, i, first(i));
    }
}

// Opens the tables for n cells: refusals 1 and 3.
#[tactic(auto, using(crate::proofs::Grants::few), unfolding(trie::specs::Opening::open_tables_of))]
pub fn open_tables(n: u64, nodes: &mut [u64], versions: &mut [u64]) -> Result<(), Refusal>
    ensures { ◌≡◌ {A = Opened} (record { told = accepted_of result; nodes = nodes.new; versions = versions.new }) (open_tables_of n nodes.old versions.old) }
{
    judge_tables(n, nodes, versions)?;
    let used = 2 * n - 1;
    fill(nodes, used + 1, |x| if x == 0 { used } else { x });
    fill(versions, VERSION_WORDS * used, |i| first_word(n, i));
    Ok(())
}
