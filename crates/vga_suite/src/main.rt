//! Runs the cases of a list, and compares each report with the expected one.
//!
//! A case is a script and its expected report, two files with the same name. `docs/SUITE.md` says
//! how they are read and written.
#![tactic(auto)]

mod cut_advances;
mod difference;
mod hexadecimal;
mod item;
mod lines;
mod picture;
mod report_text;
mod running;
mod setting;

use anyhow::{Context, Result, bail};
use cut_advances::{Cut, answers};
use difference::{Difference, first_difference};
use item::{Case, Form, Item};
use report_text::shown_report;
use setting::Setting;
use std::alloc::Global;
use std::process::ExitCode;
use std::rt::{Env, Files};
use std::str::from_utf8;
use std::{env, fs};
use vga_bits::ComparisonTally;

/// The path of the list, from the command line.
fn list_path<R: Env + AllocGlobal>(rt: &R) -> Result<String> {
    let words: Vec<String> = env::args(rt)?.collect(rt.alloc())?;
    let [_, list] = words.as_slice() else {
        bail!("one argument is wanted, the file that lists the cases");
    };
    Ok(String::from_str(rt.alloc(), list.as_str())?)
}

/// The bytes of a file.
fn read_bytes<R: Files + AllocGlobal>(rt: &R, path: &str) -> Result<Vec<u8>> {
    fs::read(rt, path).context(format_args!("{path}"))
}

/// The text of a file.
fn read_text<R: Files + AllocGlobal>(rt: &R, path: &str) -> Result<String> {
    fs::read_to_string(rt, path).context(format_args!("{path}"))
}

/// The text of a case, after the preceding text.
fn text_of<R: Files + AllocGlobal>(rt: &R, case: &Case, setting: &Setting) -> Result<Vec<u8>> {
    let alloc = rt.alloc();
    let text = read_bytes(rt, setting.path(alloc, case.name, ".vga")?.as_str())?;
    Ok(setting.text_after_preceding_text(alloc, text.as_slice())?)
}

/// What a case reports.
fn report_of<R: Files + AllocGlobal>(rt: &R, case: &Case, setting: &Setting) -> Result<Vec<u8>> {
    let alloc = rt.alloc();
    let fonts = setting.fonts();
    let answer = match case.form {
        Form::Vga => {
            let text = text_of(rt, case, setting)?;
            running::run_text(alloc, text.as_slice(), fonts, case.until)
        }
        Form::Hex => {
            let path = setting.path(alloc, case.name, ".hex")?;
            let script = read_text(rt, path.as_str())?;
            let bytes = hexadecimal::bytes_of(alloc, script.as_str()).context(path)?;
            running::run_bytes(alloc, bytes.as_slice(), fonts, case.until)
        }
    };
    Ok(running::report_or_fault(alloc, answer)?)
}

/// Where the report of a case differs from the expected one, if it does.
fn difference_of<R: Files + AllocGlobal>(
    rt: &R,
    case: &Case,
    setting: &Setting,
) -> Result<Option<Difference>> {
    let alloc = rt.alloc();
    let expected = read_text(rt, setting.path(alloc, case.name, ".txt")?.as_str())?;
    let report = report_of(rt, case, setting)?;
    let shown = shown_report(alloc, report.as_slice(), expected.as_str())?;
    Ok(first_difference(alloc, shown.as_str(), expected.as_str())?)
}

/// Checks a case, prints the result, and returns whether the case passes. A case with a wrong
/// expected report passes if its report differs from that.
fn check_case<R: Files + Print + AllocGlobal>(
    rt: &R,
    case: &Case,
    setting: &Setting,
) -> Result<bool> {
    let name = case.name;
    let difference = difference_of(rt, case, setting)?;
    match &difference {
        None => println!(rt; "{name} ok")?,
        Some(difference) => println!(rt; "{name} differs at {difference}")?,
    }
    Ok(difference.is_some() == case.is_wrong)
}

/// What the steps of a text answer, if its run comes to the end.
fn answers_of(alloc: Global, text: &str, setting: &Setting) -> Result<Option<String>> {
    let Ok(report) = running::run_text(alloc, text.as_bytes(), setting.fonts(), None) else {
        return Ok(None);
    };
    let shown = shown_report(alloc, report.as_slice(), "")?;
    Ok(Some(answers(alloc, shown.as_str())?))
}

/// Where a text answers differently once its advances are cut. None if there is nothing to compare,
/// because it has no advance that can be cut, or is no script.
fn difference_by_cut(
    alloc: Global,
    cut: Cut,
    text: &str,
    setting: &Setting,
) -> Result<Option<Option<Difference>>> {
    let Some(cut_text) = cut.of_text(alloc, text)? else {
        return Ok(None);
    };
    let Some(expected) = answers_of(alloc, text, setting)? else {
        return Ok(None);
    };
    let got = answers_of(alloc, cut_text.as_str(), setting)?.unwrap_or(String::new(alloc));
    Ok(Some(first_difference(alloc, got.as_str(), expected.as_str())?))
}

/// Cuts the advances of a case, prints whether it answers the same, and counts the result.
fn check_cut<R: Files + Print + AllocGlobal>(
    rt: &R,
    case: &Case,
    cut: Cut,
    setting: &Setting,
    tally: &mut ComparisonTally,
) -> Result<()> {
    let name = case.name;
    let text = text_of(rt, case, setting)?;
    let Ok(text) = from_utf8(text.as_slice()) else {
        return Ok(());
    };
    let Some(difference) = difference_by_cut(rt.alloc(), cut, text, setting)? else {
        return Ok(());
    };
    let by = cut.name();
    match &difference {
        None => println!(rt; "{name} ok by {by}")?,
        Some(difference) => println!(rt; "{name} by {by} differs at {difference}")?,
    }
    tally.count(difference.is_none());
    Ok(())
}

/// Does what a line of the list asks for.
fn take_item<R: Files + Print + AllocGlobal>(
    rt: &R,
    item: Item,
    setting: &mut Setting,
    tally: &mut ComparisonTally,
) -> Result<()> {
    let alloc = rt.alloc();
    match item {
        Item::Heading => {}
        Item::Fonts(file) => {
            setting.set_fonts(read_bytes(rt, setting.path(alloc, file, "")?.as_str())?);
        }
        Item::NoFront => setting.set_preceding_text(Vec::new(alloc)),
        Item::Front(file) => {
            setting.set_preceding_text(read_bytes(rt, setting.path(alloc, file, "")?.as_str())?);
        }
        Item::Case(case) => {
            tally.count(check_case(rt, &case, setting)?);
            if case.is_of_whole_text() {
                check_cut(rt, &case, Cut::SingleDots, setting, tally)?;
                check_cut(rt, &case, Cut::Parts, setting, tally)?;
            }
        }
    }
    Ok(())
}

/// Checks the cases of the list at this path.
fn check_list<R: Files + Print + AllocGlobal>(rt: &R, list: &str) -> Result<ComparisonTally> {
    let text = read_text(rt, list)?;
    let mut setting = Setting::beside(rt.alloc(), list)?;
    let mut tally = ComparisonTally::new();
    for line in text.lines() {
        let item = Item::of_line(line).context(format_args!("no item of a list: {line}"))?;
        take_item(rt, item, &mut setting, &mut tally)?;
    }
    Ok(tally)
}

fn main(rt: HostRuntime) -> Result<ExitCode> {
    let list = list_path(&rt)?;
    let tally = check_list(&rt, list.as_str())?;
    println!(rt; "{tally}")?;
    Ok(ExitCode::from(tally.status()))
}
