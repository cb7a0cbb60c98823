//! The end of a claim, and the next begin of one, by an index.

ghost use Rattle.std.specs.Prelude.{◌≡◌, false, min};
ghost use Rattle.elf_addresses.specs.Claims.{claim_end};
ghost use Rattle.elf_addresses.specs.Index.{IsWorstFirst};
ghost use Rattle.elf_addresses.specs.Owner.{ClaimBegins};
ghost use Rattle.elf_addresses.specs.Runs.{IsNext};

use crate::claim::Claim;
use crate::claims::Claims;
use crate::index::count_begun;

// The next begin of a claim that is not empty after an address, or the limit if that is smaller, by
// the sized claims in order.
pub(crate) fn next_claim<C: Claims>(claims: &C, sized: &[u32], address: u64, limit: u64) -> u64
    requires { IsWorstFirst (C.claim_of claims.now) false sized.now }
    ensures { IsNext (ClaimBegins (C.claim_of claims.now)) address limit result }
{
    let count = count_begun(claims, sized, address);
    if count == sized.len() {
        return limit;
    }
    limit.min(claims.range(sized[count] as usize).0)
}

// The first address after a claim, or a limit if that is smaller.
#[inline(always)]
pub(crate) fn limit_of(claim: &Claim, limit: u64) -> u64
    ensures { result ≡ min limit (claim_end claim.now) }
{
    limit.min(claim.begin.saturating_add(claim.size.max(1)))
}
