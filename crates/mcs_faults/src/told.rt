//! The faults of what is read by itself, before it is known with what it makes a system.

ghost use Rattle.std.specs.Prelude.{◌≡◌, ◌<◌, ◌⊎◌, ◌↔◌, List, IsTrue, false, length, map};
ghost use Rattle.mcs_base.specs.Listings.{IsAmong};
ghost use Rattle.mcs_base.specs.Numbers.{value_of_digits};
ghost use Rattle.mcs_system.specs.Plain.{Name};
ghost use Rattle.mcs_grammar.specs.Entries.{Entry};
ghost use Rattle.mcs_grammar.specs.Written.{IsNameWord};
ghost use Rattle.mcs_account.specs.Images.{About, capped, uses_in};
ghost use Rattle.mcs_account.specs.declared.place.Role.TheVariants as roles;
ghost use Rattle.mcs_faults.specs.Told.{IsLowestTold};

use crate::fault::Fault;
use mcs_account::{Role, Uses, is_name_word, weight_of};
use mcs_system::Limit;

/// Whether the token has to name a context, and names none.
fn names_no_context(role: Role, is_context: bool) -> bool
    ensures { IsTrue result ↔ (((role ≡ roles.NamesTarget) ⊎ (role ≡ roles.NamesSource))
        × (is_context ≡ false)) }
{
    match role {
        Role::NamesTarget | Role::NamesSource => !is_context,
        _ => false,
    }
}

/// Whether the token is a weight above the limit.
fn is_heavy(role: Role, token: &[u8]) -> bool
    ensures { IsTrue result ↔ ((role ≡ roles.Weighs) × (1000000 < value_of_digits token.now)) }
{
    match role {
        Role::Weighs => weight_of(token) as usize > Limit::Weight.most(),
        _ => false,
    }
}

/// Whether the token opens a parenthesis, and as many are open as the limit.
fn is_deep(role: Role) -> bool
    ensures { IsTrue result ↔ (role ≡ roles.Opens 512) }
{
    match role {
        Role::Opens { within } => within == Limit::OpenParentheses.most(),
        _ => false,
    }
}

/// Whether the token is a name that is longer than the limit.
fn is_long(token: &[u8]) -> bool
    ensures { IsTrue result ↔ (IsNameWord token.now × (64 < length token.now)) }
{
    token.len() > Limit::NameBytes.most() && is_name_word(token)
}

/// The lowest of the faults of the token that depend on nothing but it and the names of the
/// contexts, if it has one of them. `is_context` says whether a context has the token as its name,
/// if the token has to name one.
pub fn told_fault(uses: Uses, token: &[u8], is_context: bool) -> Option<Fault>
    ensures { (names : List Name) (m : Entry) (a : About) → m.token ≡ token.now
        → map capped m.uses ≡ uses_in a token.now uses
        → (((uses.role ≡ roles.NamesTarget) ⊎ (uses.role ≡ roles.NamesSource))
        → (IsTrue is_context ↔ IsAmong token.now names)) → IsLowestTold result names m }
{
    if names_no_context(uses.role, is_context) {
        return Some(Fault::NoContext);
    }
    if is_heavy(uses.role, token) {
        return Some(Fault::Exceeds(Limit::Weight));
    }
    if is_deep(uses.role) {
        return Some(Fault::Exceeds(Limit::OpenParentheses));
    }
    if is_long(token) {
        return Some(Fault::Exceeds(Limit::NameBytes));
    }
    None
}
