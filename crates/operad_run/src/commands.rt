ghost use Rattle.std.specs.Prelude.{◌≡◌, ◌↔◌, ◌≤◌, ◌+◌, [], ◌∷◌, ℕ, IfNone, IfSome, IsTrue, map, string_bytes};
ghost use Rattle.operad_run.specs.Commands.{IsBound, IsCommand, IsForms};

/// The greatest arity `N`, where the words are `forms N B`; `None` where they are not.
pub fn forms_arity(words: &[String]) -> Option<u8>
    ensures found { IfSome result (IsForms (map string_bytes words.now)) }
    ensures absent { IfNone result (IsCommand (map string_bytes words.now) → ⊥) }
{
    match words {
        [command, arity, bound] => {
            if command.as_str() != "forms" || !is_bound(bound.as_bytes()) {
                return None;
            }
            digit(arity.as_bytes())
        }
        _ => None,
    }
}

// The value of a word that is one digit from 1 to 9.
fn digit(word: &[u8]) -> Option<u8>
    ensures found { IfSome result (λ n. (1 ≤ n) × (n ≤ 9) × (word.now ≡ (48 + n) ∷ [])) }
    ensures absent { IfNone result ((n : ℕ) → 1 ≤ n → n ≤ 9 → word.now ≡ (48 + n) ∷ [] → ⊥) }
{
    match word {
        [byte] => {
            if *byte >= b'1' && *byte <= b'9' {
                Some(*byte - b'0')
            } else {
                None
            }
        }
        _ => None,
    }
}

fn is_bound(word: &[u8]) -> bool
    ensures { IsTrue result ↔ IsBound word.now }
{
    !word.is_empty() && word.len() <= 19 && word.iter().all(|byte| *byte >= b'0' && *byte <= b'9')
}
