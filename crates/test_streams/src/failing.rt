//! Sinks for tests.
ghost use Rattle.std.specs.Prelude.{◌≡◌, []};
ghost use Rattle.std.specs.String.{string_bytes};
ghost use Rattle.test_streams.specs.FailingSink.{Held, Failed, Held-nothing, Held-both, Failed-after};

use iloc_writeable::Sink;
use std::alloc::Global;
use std::fmt;

/// Holds what is written, and refuses the write before which `writes_left` writes came, and each one after it.
#[derive(Drop)]
pub struct FailingSink {
    pub text: String,
    pub writes_left: u64,
    pub failures: u64,
}

impl FailingSink {
    pub fn new(alloc: Global, writes_left: u64) -> FailingSink
        ensures empty { string_bytes result.text ≡ [] }
        ensures left { result.writes_left ≡ writes_left }
        ensures none_failed { result.failures ≡ 0 }
    {
        FailingSink {
            text: String::new(alloc),
            writes_left,
            failures: 0,
        }
    }
}

impl Sink for FailingSink {
    ghost took = { Held };

    ghost failed = { λ a t _ b. Failed a t b };

    fn write_str(&mut self, text: &str) -> fmt::Result {
        if self.writes_left == 0 {
            self.failures = self.failures.saturating_add(1);
            return Err(fmt::Error);
        }
        self.writes_left -= 1;
        match self.text.push_str(text) {
            Ok(()) => Ok(()),
            Err(_) => {
                self.failures = self.failures.saturating_add(1);
                Err(fmt::Error)
            }
        }
    }

    ghost took_nothing = { Held-nothing };

    ghost took_then_took = { λ a b c s t p q. Held-both a b c s t p q };

    ghost took_then_failed = { λ a b c s t u p q. Failed-after a b c s t p q };

    ghost failed_of_more = { λ a b t u v q. q };
}
