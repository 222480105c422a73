// What went into the program `panelrun` and what came out, a line for each event and each action: `panelrun_show INPUT OUTPUT`. An event's line begins with its time. Below it,
// indented, stand its actions, or why it was refused.
#![tactic(auto)]

mod action;
mod event;
mod message;
mod text;

use anyhow::{Result, bail};
use event::EventText;
use refusal::Refusal;
use std::rt::{Env, Files};
use std::{env, fs};
use text::Hex;
use wire::reader::Reader;
use wire::reader::fault::Fault;

// "an event over 16,384 bytes" ends the program as a cut record does.
const LONGEST_EVENT: u64 = 16384;

// An event is answered by no number over 14 but 23.
const LAST_ANSWER: u8 = Refusal::OutputTooShort as u8;

// "Such a broadcast answers 23".
const NEIGHBORS_BROADCAST: u8 = Refusal::NeighborsBroadcast as u8;

// A record: "now, length, event".
fn read_record<'a>(input: &mut Reader<'a>) -> std::result::Result<(u64, EventText<'a>), Fault> {
    let at = input.number()?;
    let len = input.number()?;
    if LONGEST_EVENT < len {
        return Err(Fault::Form);
    }
    let bytes = input.bytes(len as usize)?;
    Ok((at, EventText { bytes }))
}

// What was written for it: "answer byte, length, actions".
fn read_answer<'a>(output: &mut Reader<'a>) -> std::result::Result<(u8, &'a [u8]), Fault> {
    let number = output.byte()?;
    let len = output.number()?;
    let actions = output.bytes(len as usize)?;
    Ok((number, actions))
}

// Why a call was refused, and its actions.
fn show_answer(rt: &impl Print, number: u8, actions: &[u8]) -> Result<()> {
    match Refusal::of(number) {
        Some(refusal) if number <= LAST_ANSWER || number == NEIGHBORS_BROADCAST => {
            println!(rt; "    refused: {refusal}")?
        }
        None if number == 0 => {}
        _ => println!(rt; "    {number} is no answer")?,
    }
    let mut left = Reader { rest: actions };
    for _ in 0..actions.len() {
        if left.rest.is_empty() {
            break;
        }
        let from = left.rest;
        match action::read_action(&mut left) {
            Ok(action) => println!(rt; "    {action}")?,
            Err(_) => {
                let bytes = Hex(from);
                println!(rt; "    no action: {bytes}")?;
                break;
            }
        }
    }
    Ok(())
}

// Every record with its answer, until either ends.
fn show(rt: &impl Print, input: &[u8], output: &[u8]) -> Result<()> {
    let mut records = Reader { rest: input };
    let mut answers = Reader { rest: output };
    for _ in 0..input.len() {
        if records.rest.is_empty() {
            break;
        }
        let left = records.rest.len();
        match read_record(&mut records) {
            Ok((at, event)) => println!(rt; "{at} {event}")?,
            Err(_) => {
                println!(rt; "no record, and the end: {left} byte(s) from here on")?;
                records.rest = &[];
            }
        }
        let left = answers.rest.len();
        match read_answer(&mut answers) {
            Ok((number, actions)) => show_answer(rt, number, actions)?,
            Err(_) => {
                println!(rt; "    no answer: the output has {left} byte(s) left")?;
                return Ok(());
            }
        }
    }
    let left = answers.rest.len();
    if left != 0 {
        println!(rt; "the input ends here, and the output has {left} byte(s) more")?;
    }
    Ok(())
}

fn run<R: Files + Env + Print + Alloc>(rt: &R) -> Result<()> {
    let mut words = env::args(rt)?.skip(1);
    let (Some(input), Some(output)) = (words.next(), words.next()) else {
        bail!("usage: panelrun_show INPUT OUTPUT");
    };
    let input = fs::read(rt, input.as_str())?;
    let output = fs::read(rt, output.as_str())?;
    show(rt, &input, &output)
}

fn main(rt: HostRuntime) -> Result<()> {
    run(&rt)
}
