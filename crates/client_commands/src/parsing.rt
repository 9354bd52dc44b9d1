//! Lines as commands.

ghost use Rattle.std.specs.Prelude.{◌≡◌, ◌≤◌, ◌*◌, length, IfOk, IfSome};
ghost use Rattle.client_commands.specs.Lines.{Gives, Takes, most, read_at};
ghost use Rattle.client_commands.specs.Words.{IsNameText, data_of, name_of, number_of};
ghost use Rattle.client_commands.specs.Commands.{CommandFits, command_at, command_by, command_of, drop_at, get_at, is_remark, keys_at, make_at, most_data, set_at, unset_at, values_at};

use crate::command::Command;
use crate::command_fault::CommandFault;
use crate::line::Line;
use crate::words::{read_data, read_name, read_number};
use clus_names::Units;
use std::alloc::Global;
use wire_fields::Octets;

const MOST_BYTES: usize = 131_072;

/// The command that a line says, without its line feed; none where the line is empty or a remark.
#[tactic(auto, unfolding(crate::specs::Commands::command_of))]
pub fn parse_command(alloc: Global, text: &[u8]) -> Result<Option<Command>, CommandFault>
    ensures command { Gives (λ command. command) result (command_of text.now) }
    ensures fits { IfOk result (λ command. IfSome command CommandFits) }
{
    if text.len() > MOST_BYTES {
        return Err(CommandFault::Column(MOST_BYTES as u32 + 1));
    }
    if is_remark(text) {
        return Ok(None);
    }
    let command = read_line(alloc, text)?;
    Ok(Some(command))
}

/// Whether the line says nothing.
fn is_remark(text: &[u8]) -> bool
    ensures { result ≡ is_remark text.now }
{
    match text {
        [] => true,
        [first, ..] => *first == b'#',
    }
}

#[tactic(auto, unfolding(crate::specs::Commands::command_at))]
fn read_line(alloc: Global, text: &[u8]) -> Result<Command, CommandFault>
    requires { length text.now ≤ most }
    ensures command { Gives (λ command. command) result (command_at (record { column = 1; left = text.now })) }
    ensures fits { IfOk result CommandFits }
{
    let mut line = Line::new(text);
    let verb = line.first();
    let command = read_command(alloc, verb, &mut line)?;
    line.end()?;
    Ok(command)
}

#[tactic(auto, unfolding(crate::specs::Commands::command_by))]
fn read_command(alloc: Global, verb: &[u8], line: &mut Line<'_>) -> Result<Command, CommandFault>
    ensures command { Takes (λ command. command) result (command_by verb.now line.old) line.new }
    ensures fits { IfOk result CommandFits }
{
    if verb == b"name".as_slice() {
        return Ok(Command::Name);
    }
    if verb == b"make".as_slice() {
        return read_make(alloc, line);
    }
    if verb == b"drop".as_slice() {
        return read_drop(alloc, line);
    }
    if verb == b"set".as_slice() {
        return read_set(alloc, line);
    }
    if verb == b"unset".as_slice() {
        return read_unset(alloc, line);
    }
    if verb == b"get".as_slice() {
        return read_get(alloc, line);
    }
    if verb == b"keys".as_slice() {
        return read_keys(alloc, line);
    }
    if verb == b"values".as_slice() {
        return read_values(alloc, line);
    }
    Err(CommandFault::Column(1))
}

#[tactic(auto, unfolding(crate::specs::Commands::make_at))]
fn read_make(alloc: Global, line: &mut Line<'_>) -> Result<Command, CommandFault>
    ensures command { Takes (λ command. command) result (make_at line.old) line.new }
    ensures fits { IfOk result CommandFits }
{
    let path = next_name(alloc, line)?;
    Ok(Command::Make { path })
}

#[tactic(auto, unfolding(crate::specs::Commands::drop_at))]
fn read_drop(alloc: Global, line: &mut Line<'_>) -> Result<Command, CommandFault>
    ensures command { Takes (λ command. command) result (drop_at line.old) line.new }
    ensures fits { IfOk result CommandFits }
{
    let path = next_name(alloc, line)?;
    Ok(Command::Drop { path })
}

#[tactic(auto, unfolding(crate::specs::Commands::set_at))]
fn read_set(alloc: Global, line: &mut Line<'_>) -> Result<Command, CommandFault>
    ensures command { Takes (λ command. command) result (set_at line.old) line.new }
    ensures fits { IfOk result CommandFits }
{
    let path = next_name(alloc, line)?;
    let name = next_name(alloc, line)?;
    let kind = next_number(line)?;
    let bytes = next_data(alloc, line)?;
    Ok(Command::Set {
        path,
        name,
        kind,
        bytes,
    })
}

#[tactic(auto, unfolding(crate::specs::Commands::unset_at))]
fn read_unset(alloc: Global, line: &mut Line<'_>) -> Result<Command, CommandFault>
    ensures command { Takes (λ command. command) result (unset_at line.old) line.new }
    ensures fits { IfOk result CommandFits }
{
    let path = next_name(alloc, line)?;
    let name = next_name(alloc, line)?;
    Ok(Command::Unset { path, name })
}

#[tactic(auto, unfolding(crate::specs::Commands::get_at))]
fn read_get(alloc: Global, line: &mut Line<'_>) -> Result<Command, CommandFault>
    ensures command { Takes (λ command. command) result (get_at line.old) line.new }
    ensures fits { IfOk result CommandFits }
{
    let path = next_name(alloc, line)?;
    let name = next_name(alloc, line)?;
    Ok(Command::Get { path, name })
}

#[tactic(auto, unfolding(crate::specs::Commands::keys_at))]
fn read_keys(alloc: Global, line: &mut Line<'_>) -> Result<Command, CommandFault>
    ensures command { Takes (λ command. command) result (keys_at line.old) line.new }
    ensures fits { IfOk result CommandFits }
{
    let path = next_name(alloc, line)?;
    Ok(Command::Keys { path })
}

#[tactic(auto, unfolding(crate::specs::Commands::values_at))]
fn read_values(alloc: Global, line: &mut Line<'_>) -> Result<Command, CommandFault>
    ensures command { Takes (λ command. command) result (values_at line.old) line.new }
    ensures fits { IfOk result CommandFits }
{
    let path = next_name(alloc, line)?;
    Ok(Command::Values { path })
}

fn next_name(alloc: Global, line: &mut Line<'_>) -> Result<Units, CommandFault>
    ensures name { Takes (λ units. units) result (read_at name_of line.old) line.new }
    ensures fits { IfOk result IsNameText }
{
    let column = line.next_column();
    let word = line.word()?;
    read_name(alloc, word, column)
}

fn next_number(line: &mut Line<'_>) -> Result<u32, CommandFault>
    ensures { Takes (λ number. number) result (read_at number_of line.old) line.new }
{
    let column = line.next_column();
    let word = line.word()?;
    read_number(word, column)
}

fn next_data(alloc: Global, line: &mut Line<'_>) -> Result<Octets, CommandFault>
    ensures data { Takes (λ bytes. bytes) result (read_at data_of line.old) line.new }
    ensures few { IfOk result (λ bytes. length bytes ≤ most_data) }
{
    let column = line.next_column();
    let word = line.word()?;
    read_data(alloc, word, column)
}
