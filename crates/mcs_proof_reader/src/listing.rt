//! The listing of a report, read.

ghost use Rattle.std.specs.Prelude.{◌≡◌, ◌++◌, List, [], ℕ, map, IfOk, MatchResult};
ghost use Rattle.mcs_spelling.specs.Lines.{complete_lines, incomplete};
ghost use Rattle.mcs_proof_lines.specs.Walks.{Gives, ReturnsReading};
ghost use Rattle.mcs_proof_reader.specs.Listings.{ends_listing, listing_at, IsFrontOf};

use mcs_base::Memory;
use mcs_proof_lines::{Lines, ReportFault, out_of_place};
use mcs_spelling::strip;
use std::alloc::Global;

/// Whether the line ends a listing.
fn ends_listing(line: &[u8]) -> bool
    ensures { result ≡ ends_listing line.now }
{
    strip(line, b"end: ").is_some()
}

/// Takes the lines of the listing, up to and including the first one that begins with `end: `.
#[tactic(auto, unfolding(crate::specs::Listings::listing_at))]
fn pass_listing(lines: &mut Lines<'_>) -> Result<(), ReportFault>
    ensures { MatchResult result
        (λ _. (listing : List (List ℕ)) × (listing_at lines.old ≡ Ok (listing, lines.new)))
        (λ fault. ReturnsReading fault (listing_at lines.old)) }
{
    while let Some(line) = lines.current() {
        lines.advance();
        if ends_listing(line) {
            return Ok(());
        }
    }
    Err(out_of_place(lines))
}

/// What precedes the rest in the bytes, which end with it.
fn front_of<'b>(bytes: &'b [u8], rest: &[u8]) -> &'b [u8]
    requires { (front : List (List ℕ)) × IsFrontOf front bytes.now rest.now }
    ensures lines { (front : List (List ℕ)) → IsFrontOf front bytes.now rest.now
        → complete_lines result.now ≡ front }
    ensures whole { incomplete result.now ≡ [] }
{
    &bytes[..bytes.len() - rest.len()]
}

/// Takes the lines of the listing, up to and including the first one that begins with `end: `. They
/// are returned as bytes, each with its line feed.
pub(crate) fn take_listing<'b>(lines: &mut Lines<'b>) -> Result<&'b [u8], ReportFault>
    ensures read { Gives (λ listing. complete_lines listing.now) result lines.new
        (listing_at lines.old) }
    ensures whole { IfOk result (λ listing. incomplete listing.now ≡ []) }
{
    let bytes = lines.left();
    pass_listing(lines)?;
    Ok(front_of(bytes, lines.left()))
}

/// A copy of the line.
fn copy_of(alloc: Global, line: &[u8]) -> Result<Vec<u8>, Memory>
    ensures { IfOk result (λ v. v.items ≡ line.now) }
{
    Ok(line.to_vec(alloc)?)
}

/// A copy of each line of the bytes that ends.
pub(crate) fn copies_of(alloc: Global, bytes: &[u8]) -> Result<Vec<Vec<u8>>, Memory>
    ensures { IfOk result (λ copies. map (λ l. l.items) copies.items ≡ complete_lines bytes.now) }
{
    let mut copies = Vec::new(alloc);
    let mut lines = Lines::new(bytes);
    while let Some(line) = lines.current() {
        copies.push(copy_of(alloc, line)?)?;
        lines.advance();
    }
    Ok(copies)
}
