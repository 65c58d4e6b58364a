//! Trying the cases of a file, and telling of each whether its answers came.
ghost use Rattle.std.specs.Prelude.{◌≡◌, ◌≢◌, ◌+◌, ◌-◌, ◌^◌, ◌≤◌, ◌↔◌, ℕ, List, Option};
ghost use Rattle.std.specs.Prelude.{None, Some, IfNone, IfOk, IfSome, OnErr, OnOk, min};
ghost use Rattle.std.specs.Prelude.{option_map, string_bytes};
ghost use Rattle.std.specs.Option.{IsNone};
ghost use Rattle.std.specs.Process.{exit_status};
ghost use Rattle.kx_cases.specs.Tally.{IsRight, IsWithin, IsWrong, Judged, answer_of, ended};

use crate::fault::StepFault;
use crate::lines::{Line, read_line};
use crate::subject::Subject;
use crate::texts::Texts;
use std::alloc::{AllocError, Global};
use std::io;
use std::process::ExitCode;

/// How many cases were tried, and how many of them failed.
#[derive(Clone, Copy)]
pub struct Tally {
    /// The cases that were tried.
    pub tried: u64,
    /// The cases in which a step gave another answer, or none.
    pub failed: u64,
}

impl Tally {
    /// A tally of no case.
    pub fn none() -> Self
        ensures tried { result.tried ≡ 0 }
        ensures failed { result.failed ≡ 0 }
    {
        Tally {
            tried: 0,
            failed: 0,
        }
    }

    /// The cases of both; a number that doesn't fit stays at the greatest.
    pub fn and(self, other: Tally) -> Self
        ensures tried { result.tried ≡ min (self.tried + other.tried) (2 ^ 64 - 1) }
        ensures failed { result.failed ≡ min (self.failed + other.failed) (2 ^ 64 - 1) }
    {
        Tally {
            tried: self.tried.saturating_add(other.tried),
            failed: self.failed.saturating_add(other.failed),
        }
    }

    /// How a program ends that tried them: with status 1 if a case failed, else 0.
    pub fn exit_code(self) -> ExitCode
        ensures passed { self.failed ≡ 0 → exit_status result ≡ 0 }
        ensures failed { 1 ≤ self.failed → exit_status result ≡ 1 }
    {
        if self.failed == 0 {
            ExitCode::SUCCESS
        } else {
            ExitCode::FAILURE
        }
    }
}

// The case that is being tried: its name, and whether each answer came so far.
#[derive(Clone, Copy)]
struct Running<'a> {
    name: &'a str,
    is_right: bool,
}

// Where a file of cases has come to.
#[derive(Drop)]
struct Trial<'a> {
    alloc: Global,
    texts: Texts,
    case: Option<Running<'a>>,
    tally: Tally,
}

// The answer, if it isn't the one that is wanted.
fn differing(answer: String, want: &str) -> Option<String>
    ensures alike { IfNone result (string_bytes answer ≡ want.now) }
    ensures differs { IfSome result (λ given.
        (given ≡ answer) × (string_bytes answer ≢ want.now)) }
{
    if answer.as_str() == want {
        return None;
    }
    Some(answer)
}

// The answer, or why there is none, if it isn't the one that is wanted.
fn other_answer(
    alloc: Global,
    given: Result<String, StepFault>,
    want: &str,
) -> Result<Option<String>, AllocError>
    ensures { IfOk result (λ other. IsNone other ↔ (answer_of given ≡ Some want.now)) }
{
    match given {
        Ok(answer) => Ok(differing(answer, want)),
        Err(fault) => Ok(Some(format!(in alloc; "{fault}")?)),
    }
}

impl<'a> Trial<'a> {
    fn new(alloc: Global) -> Self
        ensures case { result.case ≡ None }
        ensures tried { result.tally.tried ≡ 0 }
        ensures failed { result.tally.failed ≡ 0 }
    {
        Trial {
            alloc,
            texts: Texts::new(alloc),
            case: None,
            tally: Tally::none(),
        }
    }

    // The case that is being tried has come to its end.
    fn end_case(&mut self, rt: &impl Print) -> io::Result<()>
        ensures case { self.new.case ≡ None }
        ensures tally { self.new.tally ≡
            ended (option_map (λ case. case.is_right) self.old.case) self.old.tally }
    {
        let Some(case) = self.case.take() else {
            return Ok(());
        };
        self.tally.tried = self.tally.tried.saturating_add(1);
        if case.is_right {
            return println!(rt; "ok {}", case.name);
        }
        self.tally.failed = self.tally.failed.saturating_add(1);
        println!(rt; "FAILED {}", case.name)
    }

    // Takes a step: its answer, or why it has none, if that isn't the one that is wanted.
    fn differs<S: Subject>(
        &self,
        subject: &mut S,
        step: &str,
        want: &str,
    ) -> io::Result<Option<String>>
        ensures { IfOk result (λ other. (given : Option (List ℕ))
            × S.answers subject.old given × (IsNone other ↔ (given ≡ Some want.now))) }
    {
        let words: Vec<&str> = step.split(' ').collect(self.alloc)?;
        let given = subject.answer(&self.texts, words.as_slice());
        Ok(other_answer(self.alloc, given, want)?)
    }

    // A case fails at the first step whose answer doesn't come; those after it aren't taken.
    fn take_step<S: Subject>(
        &mut self,
        rt: &impl Print,
        subject: &mut S,
        step: &str,
        want: &str,
    ) -> io::Result<()>
        ensures tally { self.new.tally ≡ self.old.tally }
        ensures none { IfNone self.old.case (OnOk result (IsWrong self.new.case)) }
        ensures wrong { IsWrong self.old.case → self.new.case ≡ self.old.case }
        ensures judged { IsRight self.old.case → OnOk result ((given : Option (List ℕ))
            × S.answers subject.old given
            × Judged want.now given self.old.case self.new.case) }
    {
        let Some(case) = self.case else {
            return self.fail(rt, step, "no case has begun");
        };
        if !case.is_right {
            return Ok(());
        }
        let other = self.differs(subject, step, want)?;
        self.judge(rt, step, other)
    }

    // The case goes on if the step gave no other answer than the one that is wanted.
    fn judge(&mut self, rt: &impl Print, step: &str, other: Option<String>) -> io::Result<()>
        ensures tally { self.new.tally ≡ self.old.tally }
        ensures alike { IfNone other (self.new.case ≡ self.old.case) }
        ensures differs { IfSome other (λ _. OnOk result (IsWrong self.new.case)) }
    {
        match other {
            None => Ok(()),
            Some(answer) => self.fail(rt, step, answer.as_str()),
        }
    }

    // The case is wrong from here on.
    fn fail(&mut self, rt: &impl Print, line: &str, why: &str) -> io::Result<()>
        ensures tally { self.new.tally ≡ self.old.tally }
        ensures wrong { OnOk result (IsWrong self.new.case) }
        ensures unprinted { OnErr result (self.new.case ≡ self.old.case) }
    {
        println!(rt; "{line} = {why}")?;
        let name = self.case.map_or("-", |case| case.name);
        self.case = Some(Running {
            name,
            is_right: false,
        });
        Ok(())
    }

    // The case before comes to its end, and one of this name begins.
    fn begin_case(&mut self, rt: &impl Print, name: &'a str) -> io::Result<()>
        ensures { IsWithin self.old.tally → IsWithin self.new.tally }
    {
        self.end_case(rt)?;
        self.case = Some(Running {
            name,
            is_right: true,
        });
        Ok(())
    }

    fn take_line<S: Subject>(
        &mut self,
        rt: &impl Print,
        subject: &mut S,
        line: &'a str,
    ) -> io::Result<()>
        ensures { IsWithin self.old.tally → IsWithin self.new.tally }
    {
        match read_line(line) {
            Line::Nothing => Ok(()),
            Line::Case(name) => {
                *subject = S::new(self.alloc);
                self.begin_case(rt, name)
            }
            Line::Bytes { name, bytes } => match self.texts.name(name, bytes) {
                Ok(()) => Ok(()),
                Err(_) => self.fail(rt, line, "no such bytes"),
            },
            Line::Step { step, answer } => self.take_step(rt, subject, step, answer),
            Line::Bad => self.fail(rt, line, "no such line"),
        }
    }
}

/// Tries the cases of a file on a subject of its own. Prints `ok NAME` of each whose steps all gave
/// their answers, else the first step that didn't, with what it gave, and `FAILED NAME`.
pub fn try_cases<S: Subject>(rt: &(impl Print + AllocGlobal), text: &str) -> io::Result<Tally>
    ensures { IfOk result (λ tally. tally.failed ≤ tally.tried) }
{
    let mut trial = Trial::new(rt.alloc());
    let mut subject = S::new(rt.alloc());
    for line in text.lines() {
        trial.take_line(rt, &mut subject, line)?;
    }
    trial.end_case(rt)?;
    Ok(trial.tally)
}
