//! The line on the screen.

ghost use Rattle.std.specs.Prelude.{◌≡◌, ◌<◌, false, true, OnOk};
ghost use Rattle.std.specs.Duration.{as_nanos};

use crate::Counts;
use std::io;
use std::io::Write;
use std::time::Duration;

/// A line on a screen, which is drawn over and over in one place and wiped in the end. From then on it is drawn no
/// more.
#[derive(Drop)]
pub struct Line<E> {
    screen: E,
    is_drawn: bool,
    has_ended: bool,
}

impl<E> Line<E> {
    ghost use Rattle.progress.specs.Line.{has_ended, is_drawn, screen_of};

    /// A line that isn't drawn yet.
    pub fn new(screen: E) -> Self
        ensures screen { screen_of result ≡ screen }
        ensures not_drawn { is_drawn result ≡ false }
        ensures not_ended { has_ended result ≡ false }
    {
        Line {
            screen,
            is_drawn: false,
            has_ended: false,
        }
    }

    /// Whether it is drawn no more.
    pub fn has_ended(&self) -> bool
        ensures { result ≡ has_ended self.now }
    {
        self.has_ended
    }

    /// The screen.
    pub fn into_screen(self) -> E
        ensures { result ≡ screen_of self }
    {
        self.screen
    }
}

impl<E: Write> Line<E> {
    ghost use Rattle.progress.specs.Line.{drawing, has_ended, is_drawn, screen_of, wiping, IsTimeToDraw, Shows};

    /// Draws the line, over the one that stands there. In the first second, and once the line has ended, nothing is
    /// done.
    ///
    /// # Errors
    ///
    /// Those of the screen; then a part may stand on it.
    pub fn draw(&mut self, read: u64, cells: u64, written: u64, elapsed: Duration) -> io::Result<()>
        ensures early { as_nanos elapsed < 1_000_000_000 → self.new ≡ self.old }
        ensures ended { has_ended self.old ≡ true → self.new ≡ self.old }
        ensures drawn { IsTimeToDraw (as_nanos elapsed) self.old
            → OnOk result (Shows E.contents self.old self.new (drawing read cells written (as_nanos elapsed))) }
        ensures stands { IsTimeToDraw (as_nanos elapsed) self.old → is_drawn self.new ≡ true }
        ensures ends_not { has_ended self.new ≡ has_ended self.old }
    {
        if self.has_ended || elapsed.as_secs() == 0 {
            return Ok(());
        }
        let counts = Counts {
            read,
            cells,
            written,
            seconds: elapsed.as_secs(),
        };
        self.is_drawn = true;
        write!(self.screen, "\r{counts}")
    }

    /// Wipes the line if it stands there. From then on it is drawn no more.
    ///
    /// # Errors
    ///
    /// Those of the screen; then a part may still stand on it.
    pub fn end(&mut self) -> io::Result<()>
        ensures ended { has_ended self.new ≡ true }
        ensures wiped { is_drawn self.new ≡ false }
        ensures untouched { is_drawn self.old ≡ false → screen_of self.new ≡ screen_of self.old }
        ensures drawn { is_drawn self.old ≡ true → OnOk result (Shows E.contents self.old self.new wiping) }
    {
        self.has_ended = true;
        if !self.is_drawn {
            return Ok(());
        }
        self.is_drawn = false;
        write!(
            self.screen,
            "\r                                                                              \r"
        )
    }
}
