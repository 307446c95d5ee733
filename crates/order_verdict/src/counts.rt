//! How many broadcasts of a message came.

ghost use Rattle.std.specs.Prelude.{◌≡◌};
ghost use Rattle.order_verdict.specs.Counts.{first_more, is_more, is_right_by, times_by, whole_before, whole_by};

use verification::JudgedPage;

/// Whether a page is a right one of a number, sent by a slot.
fn is_right_by(last: usize, number: usize, page: &JudgedPage) -> bool
    ensures { result ≡ is_right_by last number page.now }
{
    usize::from(page.number) == number && page.right && page.slot <= last
}

/// How often the page of a number came right by a slot.
fn times_by(pages: &[JudgedPage], last: usize, number: usize) -> usize
    ensures { result ≡ times_by pages.now last number }
{
    let mut times = 0;
    for page in pages {
        if is_right_by(last, number, page) {
            times += 1;
        }
    }
    times
}

/// How many whole broadcasts of a message of so many pages came by a slot.
fn whole_by(total: usize, pages: &[JudgedPage], last: usize) -> usize
    ensures { result ≡ whole_by total pages.now last }
{
    let mut least = pages.len();
    for place in 0..total {
        least = least.min(times_by(pages, last, place + 1));
    }
    least
}

/// How many whole broadcasts of a message of so many pages came before a slot.
pub fn whole_before(total: usize, pages: &[JudgedPage], end: usize) -> usize
    ensures { result ≡ whole_before total pages.now end }
{
    if end == 0 {
        return 0;
    }
    whole_by(total, pages, end - 1)
}

/// The slot of the first page with which more broadcasts are whole than were requested.
pub fn first_more(total: usize, broadcasts: u16, pages: &[JudgedPage]) -> Option<usize>
    ensures { result ≡ first_more total broadcasts pages.now }
{
    for page in pages {
        if is_more(total, broadcasts, pages, page) {
            return Some(page.slot);
        }
    }
    None
}

/// Whether with a page more broadcasts are whole than were requested.
fn is_more(total: usize, broadcasts: u16, pages: &[JudgedPage], page: &JudgedPage) -> bool
    ensures { result ≡ is_more total broadcasts pages.now page.now }
{
    usize::from(broadcasts) < whole_by(total, pages, page.slot)
}
