//! draw FILE, or draw with the text on standard input: tells the answers to the text's questions, a line each,
//! or `refused N at P`, and then ends with status 1.

#![tactic(auto)]

use modeller::drawing::Drawing;
use modeller::types::Refused;
use modeller::{WORK_NEEDED, steps_for};
use std::io::Read;
use std::process::ExitCode;
use std::{env, fs};

/// Why the answers are not all told.
#[derive(Drop)]
enum Stop {
    /// The text or a question is refused.
    Refused(Refused),
    /// Reading, printing or memory failed.
    Failed(anyhow::Error),
}

impl From<Refused> for Stop {
    fn from(why: Refused) -> Stop {
        Stop::Refused(why)
    }
}

impl From<anyhow::Error> for Stop {
    fn from(error: anyhow::Error) -> Stop {
        Stop::Failed(error)
    }
}

/// The text: the file that is named, or standard input.
fn text_of(rt: &HostRuntime) -> anyhow::Result<Vec<u8>> {
    let mut args = env::args(rt)?;
    let _ = args.next();
    if let Some(path) = args.next() {
        return Ok(fs::read(rt, path.as_str())?);
    }
    let mut text = Vec::new(rt.alloc());
    rt.stdin().read_to_end(&mut text)?;
    Ok(text)
}

/// So many words to lend.
fn words(rt: &HostRuntime, count: usize) -> anyhow::Result<Vec<u64>> {
    Ok(vec![in rt.alloc(); 0u64; count]?)
}

/// Reads the text and tells its answers.
fn run(rt: &HostRuntime) -> Result<(), Stop> {
    let text = text_of(rt)?;
    let count = steps_for(text.len()).ok_or(Refused::Steps)?;
    let mut steps = words(rt, count)?;
    let mut work = words(rt, WORK_NEEDED)?;
    let drawing = Drawing::read(&text, &mut steps)?;
    // By their numbers, as `tell` is asked.
    for k in 0..drawing.questions() {
        if let Some(reply) = drawing.tell(k, &mut work)? {
            rt.println(&reply).map_err(anyhow::Error::from)?;
        }
    }
    Ok(())
}

fn main(rt: HostRuntime) -> ExitCode {
    match run(&rt) {
        Ok(()) => return ExitCode::SUCCESS,
        Err(Stop::Refused(why)) => {
            if let Err(error) = rt.println(&why) {
                let _ = rt.eprintln(&error);
            }
        }
        Err(Stop::Failed(error)) => {
            let _ = rt.eprintln(&error);
        }
    }
    ExitCode::FAILURE
}
