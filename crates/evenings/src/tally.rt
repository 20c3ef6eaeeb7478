// Totals: what happened, and what was not as the rules say.
use std::fmt;

// How often something happened.
#[derive(Clone, Copy, Default)]
pub struct Count(u64);

impl Count {
    // Once more.
    pub fn add(&mut self) {
        self.0 = self.0.saturating_add(1);
    }

    // Once more, if it is so.
    pub fn add_if(&mut self, so: bool) {
        self.0 = self.0.saturating_add(u64::from(so));
    }
}

impl fmt::Display for Count {
    fn fmt<W: fmt::Write>(&self, f: &mut fmt::Formatter<W>) -> fmt::Result {
        write!(f, "{}", self.0)
    }
}

#[derive(Clone, Copy, Default)]
pub struct Tally {
    pub evenings: Count,
    pub events: Count,
    pub said: Count,
    pub answered: Count,
    pub heard: Count,
    pub wrong_said: Count,
    pub wrong_answers: Count,
    pub wrong_done: Count,
    pub wrong_handed: Count,
    pub not_over: Count,
}

impl Tally {
    // Each line by a write of its own, so that an output that fails has whole lines.
    pub fn show(&self, rt: &HostRuntime) -> anyhow::Result<()> {
        println!(rt; "evenings {}, events {}", self.evenings, self.events)?;
        println!(rt;
            "payloads said {}, answers {}, payloads heard {}",
            self.said, self.answered, self.heard
        )?;
        println!(rt;
            "violations: said {}, answers {}, done {}, handed over {}, not over in time {}",
            self.wrong_said, self.wrong_answers, self.wrong_done, self.wrong_handed, self.not_over
        )?;
        Ok(())
    }
}
