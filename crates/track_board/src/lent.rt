//! The loans that a board keeps.

ghost use Rattle.std.specs.Prelude.{◌≡◌, ◌+◌, ℕ, slice_get, Some, vec_len};
ghost use Rattle.std.specs.List.{position, remove};
ghost use Rattle.speculation.specs.declared.tracks.OpenLoan as O;
ghost use Rattle.speculation.specs.Core.{name_eq, find_loan};
ghost use Rattle.speculation.specs.Events.{end_loan};
ghost use Rattle.track_board.specs.Parts.{core_loan, core_loans};

use crate::loan::Lent;
use speculation::{Name, OpenLoan};

/// The place of the first loan of this name.
pub(crate) fn find_lent(loans: &[Lent], name: Name) -> Option<usize>
    ensures { result ≡ position (λ l. name_eq name l.name) loans.now }
{
    loans.iter().position(|lent| is_same(name, lent.name))
}

/// The loan of this name, as others see it.
pub(crate) fn open_loan_of(loans: &[Lent], name: Name) -> Option<OpenLoan>
    ensures { result ≡ find_loan name (core_loans loans.now) }
{
    match find_lent(loans, name) {
        Some(place) => {
            let lent = &loans[place];
            Some(open_loan(lent))
        }
        None => None,
    }
}

fn open_loan(lent: &Lent) -> OpenLoan
    ensures { result ≡ core_loan lent.now }
{
    OpenLoan {
        seat: lent.seat,
        name: lent.name,
        dropped: lent.dropped,
    }
}

/// Takes the loan of this name out.
pub(crate) fn take_lent(loans: &mut Vec<Lent>, name: Name) -> Lent
    requires { (l : O.OpenLoan) × (find_loan name (core_loans loans.old.items) ≡ Some l) }
    ensures found { find_loan name (core_loans loans.old.items) ≡ Some (core_loan result) }
    ensures ended { core_loans loans.new.items ≡ end_loan name (core_loans loans.old.items) }
    ensures place { (place : ℕ) × (slice_get loans.old.items place ≡ Some result) × (loans.new.items ≡ remove loans.old.items place) }
    ensures len { vec_len loans.new + 1 ≡ vec_len loans.old }
{
    match find_lent(loans, name) {
        Some(place) => loans.remove(place),
        None => unreachable!(),
    }
}

/// Whether these names are one.
fn is_same(a: Name, b: Name) -> bool
    ensures { result ≡ name_eq a b }
{
    a.generation == b.generation && a.region == b.region && a.normal == b.normal
}
