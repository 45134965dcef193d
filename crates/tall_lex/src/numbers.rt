//! The numbers of a script.
ghost use Rattle.std.specs.Prelude.{◌≡◌};
ghost use Rattle.tall_lex.specs.Numbers.{is_whole_number};

use tall_num::{read_field, to_whole};

/// Do these bytes spell a whole number of a magnitude of at most 2^53?
#[tactic(auto, unfolding(crate::specs::Numbers::is_whole_number))]
pub(crate) fn is_whole_number(text: &[u8]) -> bool
    ensures { result ≡ is_whole_number text.now }
{
    match read_field(text) {
        Ok(field) => to_whole(field).is_ok(),
        Err(_) => false,
    }
}
