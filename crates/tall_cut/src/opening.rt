//! Opening a file of a shelf, and getting the shelf back.

ghost use Rattle.std.specs.Prelude.{◌≡◌, IfOk, IfErr, IfSome, IsSomeAnd, Some, None};
ghost use Rattle.tall_outside.specs.Count.{RisesIf};
ghost use Rattle.tall_outside.specs.Shelf.{Logs, file_in, has_failed, is_missing};
ghost use Rattle.tall_cut.specs.Asked.{Asks, opening_of};
ghost use Rattle.tall_cut.specs.Left.{feed_left};

use crate::feed::{Feed, FeedFault, Lent, OpenedFile, Refused};
use std::marker::PhantomData;
use tall_outside::{Opening, Shelf};

/// Opens the file of this name, of which no more than `limit` bytes may come.
///
/// The shelf comes back with a fault too. `NoSuch` comes exactly where the shelf holds no file of the
/// name, where it tells and neither failed nor lacked memory; `Failed` comes only where its count of
/// faults rose.
pub fn open_feed<'s, S: Shelf, K: OpenedFile>(
    lent: Lent<'s, S>,
    name: &str,
    limit: u64,
) -> Result<Feed<'s, S, K>, Refused<'s, S>>
    requires { Asks S.Shelf K.OpenedFile lent.shelf.ghost_name lent.shelf.now name.now limit }
    ensures bytes { IfOk result (λ f. IfSome K.held (λ files. IsSomeAnd (file_in files name.now) (λ bytes. feed_left f ≡ Some bytes))) }
    ensures absent { IfErr result (λ e. e.fault ≡ FeedFault.NoSuch → IfSome K.held (λ files. file_in files name.now ≡ None)) }
    ensures lender { IfErr result (λ e. Some e.lent.shelf.ghost_name ≡ K.lender) }
    ensures held { IfErr result (λ e. S.held e.lent.shelf.now ≡ K.held) }
    ensures opened { IfErr result (λ e. Logs (S.opened lent.entry.shelf.now) (S.opened e.lent.shelf.now) name.now (opening_of e.fault)) }
    ensures misses { IfErr result (λ e. RisesIf (is_missing (opening_of e.fault)) K.misses (S.misses e.lent.shelf.now)) }
    ensures faults { IfErr result (λ e. RisesIf (has_failed (opening_of e.fault)) K.faults (S.faults e.lent.shelf.now)) }
{
    let Lent { shelf } = lent;
    let fault = match shelf.open(name) {
        Opening::Opened => {
            return Ok(Feed {
                shelf,
                limit,
                came: 0,
                failed: false,
                too_large: false,
                at_end: false,
                opening: PhantomData,
            });
        }
        Opening::NoSuch => FeedFault::NoSuch,
        Opening::Failed => FeedFault::Failed,
        Opening::Memory => FeedFault::Memory,
    };
    Err(Refused {
        fault,
        lent: Lent { shelf },
    })
}
