//! Growths of memory that are refused while a history is begun, saved or loaded, or made by commands: as in `memory`.

use super::checks::{State, check_bare, check_state, same};
use super::memory::{
    LIST, SCENE, Twins, begun, check_twins, check_unchanged, edits_of, make_twins,
};
use super::{TableError, bytes_in, if_memory, only_row};
use mk_edit::{Command, LoadError, Reply, Session};
use mk_line::Meter;
use mk_rows::{Row, rows};
use std::alloc::Global;
use std::process::Abort;
use std::test::Fail;

// Begins with a text that came back.
fn check_start_again(
    rt: &impl Abort,
    alloc: Global,
    back: Vec<u8>,
    setting: &Row,
) -> Result<(), Fail> {
    let message = bytes_in(setting, "message")?;
    same(rt, &back, message, setting.shows);
    match Session::start(alloc, back) {
        Ok(session) => {
            let state = State::new(message, 0, 0);
            check_state(rt, alloc, &session, state, setting.shows)
        }
        Err(_) => Err(Fail::new("memory")),
    }
}

#[test]
fn memory_start(rt: HostRuntime) -> Result<(), Fail> {
    let alloc = rt.alloc();
    if let Some(setting) = if_memory(only_row(alloc, SCENE))?
        && let Ok(text) = Vec::from_slice(alloc, bytes_in(&setting, "message")?)
    {
        match Session::start(alloc, text) {
            Ok(session) => {
                let state = State::new(bytes_in(&setting, "message")?, 0, 0);
                check_bare(&rt, &session, state, setting.shows);
            }
            Err((back, _)) => check_start_again(&rt, alloc, back, &setting)?,
        }
    }
    Ok(())
}

fn check_saved(
    rt: &impl Abort,
    alloc: Global,
    twins: &mut Twins,
    setting: &Row,
) -> Result<(), Fail> {
    let wanted = bytes_in(setting, "journal")?;
    match twins.session.save() {
        Ok(journal) => same(rt, &journal, wanted, setting.shows),
        Err(_) => {
            check_unchanged(rt, alloc, twins, setting, setting.shows)?;
            same(rt, &twins.session.save()?, wanted, setting.shows);
        }
    }
    Ok(())
}

#[test]
fn memory_save(rt: HostRuntime) -> Result<(), Fail> {
    let alloc = rt.alloc();
    if let Some(setting) = if_memory(only_row(alloc, SCENE))?
        && let Some(mut twins) = if_memory(make_twins(alloc, &setting))?
    {
        check_saved(&rt, alloc, &mut twins, &setting)?;
    }
    Ok(())
}

// What is loaded, and a session that it has to be like.
#[derive(Drop)]
struct Files {
    text: Vec<u8>,
    journal: Vec<u8>,
    twin: Session,
}

fn read_files(alloc: Global, setting: &Row) -> Result<Files, TableError> {
    let text = Vec::from_slice(alloc, bytes_in(setting, "now")?)?;
    let journal = Vec::from_slice(alloc, bytes_in(setting, "journal")?)?;
    let twin = begun(alloc, setting)?;
    Ok(Files {
        text,
        journal,
        twin,
    })
}

// Loads a journal with a text that came back.
fn check_load_again(
    rt: &impl Abort,
    alloc: Global,
    files: Files,
    setting: &Row,
) -> Result<(), Fail> {
    let Files {
        text,
        journal,
        twin,
    } = files;
    same(rt, &text, bytes_in(setting, "now")?, setting.shows);
    same(rt, &journal, bytes_in(setting, "journal")?, setting.shows);
    match Session::load(alloc, text, &journal) {
        Ok(session) => {
            let mut twins = Twins { session, twin };
            check_unchanged(rt, alloc, &mut twins, setting, setting.shows)
        }
        Err(_) => Err(Fail::new("memory")),
    }
}

fn check_loaded(rt: &impl Abort, alloc: Global, files: Files, setting: &Row) -> Result<(), Fail> {
    let Files {
        text,
        journal,
        twin,
    } = files;
    match Session::load(alloc, text, &journal) {
        Ok(session) => {
            let state = State::new(bytes_in(setting, "now")?, 1, 1);
            check_bare(rt, &session, state, setting.shows);
            Ok(())
        }
        Err((text, error)) => {
            assert_eq!(rt; error, LoadError::Memory);
            let files = Files {
                text,
                journal,
                twin,
            };
            check_load_again(rt, alloc, files, setting)
        }
    }
}

#[test]
fn memory_load(rt: HostRuntime) -> Result<(), Fail> {
    let alloc = rt.alloc();
    if let Some(setting) = if_memory(only_row(alloc, SCENE))?
        && let Some(files) = if_memory(read_files(alloc, &setting))?
    {
        check_loaded(&rt, alloc, files, &setting)?;
    }
    Ok(())
}

fn commands_of(alloc: Global, list: &[Row]) -> Result<Vec<Command>, TableError> {
    let mut commands = Vec::new(alloc);
    for edit in edits_of(alloc, list)? {
        commands.push(Command::Do(edit))?;
    }
    Ok(commands)
}

fn check_replies(rt: &impl Abort, replies: &[Reply], count: usize) {
    assert_eq!(rt; replies.len(), count);
    for reply in replies {
        assert_eq!(rt; *reply, Reply::Obeyed);
    }
}

// Obeys the commands that are left where memory ran out: those before them were obeyed, and no other.
fn obey_rest(
    rt: &impl Abort,
    alloc: Global,
    twins: &mut Twins,
    commands: &[Command],
    shows: &str,
) -> Result<(), Fail> {
    let count = twins.session.done().saturating_sub(1);
    let front = commands.get(..count).unwrap_or(commands);
    let rest = commands.get(count..).unwrap_or(commands);
    twins.twin.obey_all(alloc, front, &mut Meter::new())?;
    check_twins(rt, alloc, twins, shows)?;
    let replies = twins.session.obey_all(alloc, rest, &mut Meter::new())?;
    check_replies(rt, &replies, rest.len());
    Ok(())
}

fn check_obeyed(
    rt: &impl Abort,
    alloc: Global,
    twins: &mut Twins,
    commands: &[Command],
    last: &Row,
) -> Result<(), Fail> {
    match twins.session.obey_all(alloc, commands, &mut Meter::new()) {
        Ok(replies) => check_replies(rt, &replies, commands.len()),
        Err(_) => obey_rest(rt, alloc, twins, commands, last.shows)?,
    }
    let after = State::new(bytes_in(last, "gives")?, 6, 0);
    check_bare(rt, &twins.session, after, last.shows);
    Ok(())
}

#[test]
fn memory_obey_all(rt: HostRuntime) -> Result<(), Fail> {
    let alloc = rt.alloc();
    if let Some(setting) = if_memory(only_row(alloc, SCENE))?
        && let Some(mut twins) = if_memory(make_twins(alloc, &setting))?
        && let Ok(list) = rows(alloc, LIST)
        && let Some(commands) = if_memory(commands_of(alloc, &list))?
        && let Some(last) = list.last()
    {
        check_obeyed(&rt, alloc, &mut twins, &commands, last)?;
    }
    Ok(())
}
