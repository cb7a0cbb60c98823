//! Addresses and pages (gABI, "Program Loading").

ghost use Rattle.std.specs.Prelude.{◌≡◌, ◌+◌, ◌%◌, ◌<◌, ◌≤◌, ◌^◌, false, nat_lt};
ghost use Rattle.elf_loading.specs.Pages.{down, up};

// The place of an address in its page. The usual size has a case of its own: a remainder by a constant
// takes no division.
#[inline(always)]
pub(crate) fn inside(page: u64, address: u64) -> u64
    requires { 0 < page }
    ensures value { result ≡ address % page }
    ensures bound { result ≤ address }
    ensures near { result < page }
{
    if page == 4096 {
        return address % 4096;
    }
    address % page
}

// The last address up to `address` at which a page begins.
#[tactic(auto, unfolding(crate::specs::Pages::down))]
#[inline(always)]
pub(crate) fn down(page: u64, address: u64) -> u64
    requires { 0 < page }
    ensures { result ≡ down page address }
{
    address - inside(page, address)
}

// The first address from `address` on at which a page begins. With the usual size the last byte of its page, rounded
// down, takes no branch.
#[tactic(auto, using(crate::proofs::Rounded::up_at, crate::proofs::Rounded::up_in, crate::proofs::Rounded::up_usual, crate::proofs::Rounded::up_room))]
#[inline(always)]
pub(crate) fn up(page: u64, address: u64) -> u64
    requires page { 0 < page }
    requires fits { up page address < 2 ^ 64 }
    ensures { result ≡ up page address }
{
    if page == 4096 {
        let last = address + 4095;
        return last - last % 4096;
    }
    let inside = inside(page, address);
    if inside == 0 {
        return address;
    }
    address - inside + page
}

// Whether the pages of `size` bytes from `address` on extend past a limit.
#[tactic(auto, using(crate::proofs::Rounded::past_all, crate::proofs::Rounded::past_is, crate::proofs::Rounded::down_le))]
#[inline(always)]
pub(crate) fn is_past(page: u64, limit: u64, address: u64, size: u64) -> bool
    requires { 0 < page }
    ensures past { result ≡ nat_lt limit (up page (address + size)) }
    ensures within { result ≡ false → address + size ≤ limit }
{
    let last = down(page, limit);
    if address > last {
        return true;
    }
    size > last - address
}

// The last address up to the end of `size` bytes from `start` on at which a page begins. Past 64 bits the remainder of the
// sum is that of two numbers of 64 bits: a division of 128 bits would need a function of the compiler's own library.
#[tactic(auto, using(crate::proofs::Rounded::end_inside, crate::proofs::Rounded::end_over))]
#[inline(always)]
pub(crate) fn end_down(page: u64, start: u64, size: u64) -> u128
    requires { 0 < page }
    ensures { result ≡ down page (start + size) }
{
    if let Some(end) = start.checked_add(size) {
        return u128::from(down(page, end));
    }
    let (first, last) = (inside(page, start), inside(page, size));
    let left = page - last;
    let over = if first < left {
        first + last
    } else {
        first - left
    };
    u128::from(start) + u128::from(size) - u128::from(over)
}

// The end of the pages of `size` bytes from `start` on.
#[tactic(auto, using(crate::proofs::Rounded::up_same, crate::proofs::Rounded::up_next))]
#[inline(always)]
pub(crate) fn end_up(page: u64, start: u64, size: u64) -> u128
    requires { 0 < page }
    ensures { result ≡ up page (start + size) }
{
    let end = u128::from(start) + u128::from(size);
    let last = end_down(page, start, size);
    if last == end {
        return end;
    }
    last + u128::from(page)
}
