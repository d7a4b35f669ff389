// Where a triple-quoted string ends.
ghost use Rattle.std.specs.Prelude.{◌≡◌};
ghost use Rattle.triple_strings.specs.Triple.{quotes, until_quotes};

// Three quotes stand at the front.
#[tactic(auto, using(crate::proofs::QuoteSearch::starts_quotes))]
pub fn at_quotes(t: &[u8]) -> bool
    ensures { result ≡ quotes t.now }
{
    t.starts_with(b"\"\"\"")
}

// How many bytes stand before the first three quotes; all of them where there are none, since the raw bytes end there then. A byte that is no quote rules out three starts.
#[tactic(auto, using(crate::proofs::QuoteSearch::finding))]
pub fn find_quotes(t: &[u8]) -> usize
    ensures { result ≡ until_quotes t.now }
{
    let mut i = 0;
    // A `while`: the step is one byte or three.
    while 2 < t.len() - i {
        if t[i + 2] == b'"' {
            if at_quotes(&t[i..]) {
                return i;
            }
            i += 1;
        } else {
            i += 3;
        }
    }
    t.len()
}
