// The array: 512 bytes in pages, and how an address moves inside its page or across the array.
ghost use Rattle.std.specs.Prelude.{◌≡◌, ◌+◌, ◌-◌, ◌%◌, ◌^◌, ◌<◌, ◌≤◌};
ghost use Rattle.chip.specs.Pages.{page_first, next_in_page, next_in_array};

use memory::ARRAY_PLACES;

// The bytes of the array.
pub const ARRAY: u16 = ARRAY_PLACES as u16;

// The bytes of a page of the array.
pub const PAGE: u16 = 64;

// The first address of the page that an address lies in.
pub fn page_first(address: u16) -> u16
    ensures { result ≡ page_first address }
{
    address / PAGE * PAGE
}

// One on from `at` in a stretch of addresses; after its last comes its first.
pub(crate) fn next_in(first: u16, length: u16, at: u16) -> u16
    requires some { 0 < length }
    requires within { first + length ≤ 2 ^ 16 }
    ensures { result ≡ first + ((at - first) % length + 1) % length }
{
    first + (at.saturating_sub(first) % length + 1) % length
}

// One address on inside its page; after the page's last comes its first.
pub(crate) fn next_in_page(address: u16) -> u16
    ensures { result ≡ next_in_page address }
{
    next_in(page_first(address), PAGE, address)
}

// One address on across the array; after the last comes 0.
pub(crate) fn next_in_array(address: u16) -> u16
    ensures { result ≡ next_in_array address }
{
    next_in(0, ARRAY, address)
}
