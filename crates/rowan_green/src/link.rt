//! A number that may be none.
ghost use Rattle.std.specs.Prelude.{◌≡◌, ◌<◌, None, Some};
ghost use Rattle.rowan_green.specs.Link.{link_limit};

use std::marker::Model;

// The number that stands for none.
const NO_NUMBER: u32 = u32::MAX;

/// A number, or none, in four bytes. The number is below 4,294,967,295.
#[derive(Clone, Copy)]
pub struct Link {
    raw: u32,
}

impl Model for Link {
    ghost use Rattle.std.specs.Prelude.{ℕ, Option};
    ghost use Rattle.std.specs.Coded.{coded_option, coded_ℕ};
    ghost use Rattle.rowan_green.specs.Link.{linked, link_number};

    ghost Value = { Option ℕ };

    ghost coded = { coded_option coded_ℕ };

    ghost view = { λ l. linked l.raw };

    ghost inverse = { λ o. record { raw = link_number o } };
}

impl Link {
    /// None.
    pub fn none() -> Link
        ensures { result ≡ None }
    {
        Link { raw: NO_NUMBER }
    }

    /// A number.
    pub fn to(number: u32) -> Link
        requires { number < link_limit }
        ensures { result ≡ Some number }
    {
        Link { raw: number }
    }

    /// The number, if it is one.
    pub fn number(self) -> Option<u32>
        ensures { result ≡ self }
    {
        if self.raw == NO_NUMBER {
            return None;
        }
        Some(self.raw)
    }
}
