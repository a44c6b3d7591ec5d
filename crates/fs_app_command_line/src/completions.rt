//! Scripts by which a shell completes the words of a command line. They are made of what the program is told of its own
//! command line, so each command and each option stands there.
use clap::builder::ValueParser;
use clap::{Arg, Command};
use std::alloc::{AllocError, Global};

/// A shell for which there is a script.
#[derive(Clone, Copy)]
pub enum Shell {
    Bash,
    Zsh,
    Fish,
}

/// What stands before the cases of the bash script, and after them.
const BASH_HEAD: &str =
    r#"# Completes the words of rvfence in bash, after: source <(rvfence completions bash)
_rvfence() {
    local word=${COMP_WORDS[COMP_CWORD]} options= values=
    case "$((COMP_CWORD > 1)) ${COMP_WORDS[1]}" in
"#;

const BASH_TAIL: &str = r#"    esac
    [[ $word != -* ]] || values=$options
    COMPREPLY=($(compgen -W "$values" -- "$word"))
}
complete -o default -F _rvfence rvfence
"#;

/// The same of the zsh script.
const ZSH_HEAD: &str = r#"#compdef rvfence
# Completes the words of rvfence in zsh, after: source <(rvfence completions zsh)
_rvfence() {
    local -a options values
    case "$((CURRENT > 2)) $words[2]" in
"#;

const ZSH_TAIL: &str = r#"    esac
    if [[ $PREFIX == -* ]]; then
        _describe -o option options
    elif (($#values)); then
        _describe word values
    else
        _files
    fi
}
if [[ $funcstack[1] == _rvfence ]]; then _rvfence "$@"; else compdef _rvfence rvfence; fi
"#;

const FISH_HEAD: &str = "\
# Completes the words of rvfence in fish, after: rvfence completions fish | source
complete -c rvfence -s h -l help -d 'Print help'
complete -c rvfence -n __fish_use_subcommand -s V -l version -d 'Print version'
";

/// The script for this shell. The error is want of memory.
pub(crate) fn script(
    alloc: Global,
    program: &Command<'_>,
    shell: Shell,
) -> Result<String, AllocError> {
    let mut text = String::new(alloc);
    match shell {
        Shell::Bash => write_bash(program, &mut text)?,
        Shell::Zsh => write_zsh(alloc, program, &mut text)?,
        Shell::Fish => write_fish(alloc, program, &mut text)?,
    }
    Ok(text)
}

/// Must the argument be one of some names?
fn has_names(argument: &Arg<'_>) -> bool {
    matches!(argument.get_value_parser(), ValueParser::Names(_))
}

/// The text as a word of each of the shells.
fn quoted(alloc: Global, text: &str) -> Result<String, AllocError> {
    text.replace(alloc, "'", r"'\''")
}

fn write_bash(program: &Command<'_>, text: &mut String) -> Result<(), AllocError> {
    text.push_str(BASH_HEAD)?;
    write_bash_commands(program, text)?;
    for command in program.get_subcommands() {
        write_bash_case(command, text)?;
    }
    text.push_str(BASH_TAIL)
}

/// The names of the commands.
fn write_bash_commands(program: &Command<'_>, text: &mut String) -> Result<(), AllocError> {
    text.push_str("        '0 '*) options='--help --version' values='")?;
    for command in program.get_subcommands() {
        write!(text, "{} ", command.get_name())?;
    }
    text.push_str("help' ;;\n")
}

/// The options of a command, and the names that an argument of it may be.
fn write_bash_case(command: &Command<'_>, text: &mut String) -> Result<(), AllocError> {
    write!(text, "        '1 {}') options='", command.get_name())?;
    for argument in command.get_arguments() {
        write_bash_option(argument, text)?;
    }
    text.push_str("--help' values='")?;
    write_all_names(command, text)?;
    text.push_str("' ;;\n")
}

fn write_bash_option(argument: &Arg<'_>, text: &mut String) -> Result<(), AllocError> {
    match argument.get_long() {
        Some(name) => write!(text, "--{} ", name),
        None => Ok(()),
    }
}

/// The names that an argument of the command may be.
fn write_all_names(command: &Command<'_>, text: &mut String) -> Result<(), AllocError> {
    for argument in command.get_arguments() {
        write_names(argument, text)?;
    }
    Ok(())
}

/// The names of which the argument must be one, where it must, with a blank behind each.
fn write_names(argument: &Arg<'_>, text: &mut String) -> Result<(), AllocError> {
    if let ValueParser::Names(names) = argument.get_value_parser() {
        for name in names {
            write!(text, "{} ", name)?;
        }
    }
    Ok(())
}

fn write_zsh(alloc: Global, program: &Command<'_>, text: &mut String) -> Result<(), AllocError> {
    text.push_str(ZSH_HEAD)?;
    write_zsh_commands(alloc, program, text)?;
    for command in program.get_subcommands() {
        write_zsh_case(alloc, command, text)?;
    }
    text.push_str(ZSH_TAIL)
}

/// The same as `write_bash_commands`, with what each command answers.
fn write_zsh_commands(
    alloc: Global,
    program: &Command<'_>,
    text: &mut String,
) -> Result<(), AllocError> {
    text.push_str(
        "        '0 '*)\n            options=(--help --version)\n            values=(\n",
    )?;
    for command in program.get_subcommands() {
        write_zsh_command(alloc, command, text)?;
    }
    text.push_str("                help\n            ) ;;\n")
}

fn write_zsh_command(
    alloc: Global,
    command: &Command<'_>,
    text: &mut String,
) -> Result<(), AllocError> {
    let about = quoted(alloc, command.get_about().unwrap_or(""))?;
    writeln!(
        text,
        "                '{}:{}'",
        command.get_name(),
        about.as_str()
    )
}

/// The same as `write_bash_case`, with what each option is for.
fn write_zsh_case(
    alloc: Global,
    command: &Command<'_>,
    text: &mut String,
) -> Result<(), AllocError> {
    writeln!(
        text,
        "        '1 {}')\n            options=(",
        command.get_name()
    )?;
    for argument in command.get_arguments() {
        write_zsh_option(alloc, argument, text)?;
    }
    text.push_str("                --help\n            )\n            values=(")?;
    write_all_names(command, text)?;
    text.push_str(") ;;\n")
}

fn write_zsh_option(
    alloc: Global,
    argument: &Arg<'_>,
    text: &mut String,
) -> Result<(), AllocError> {
    let Some(name) = argument.get_long() else {
        return Ok(());
    };
    let help = quoted(alloc, argument.get_help().unwrap_or(""))?;
    writeln!(text, "                '--{}:{}'", name, help.as_str())
}

fn write_fish(alloc: Global, program: &Command<'_>, text: &mut String) -> Result<(), AllocError> {
    text.push_str(FISH_HEAD)?;
    for command in program.get_subcommands() {
        write_fish_command(alloc, command, text)?;
    }
    for command in program.get_subcommands() {
        write_fish_arguments(alloc, command, text)?;
    }
    Ok(())
}

/// A line for a command.
fn write_fish_command(
    alloc: Global,
    command: &Command<'_>,
    text: &mut String,
) -> Result<(), AllocError> {
    let about = quoted(alloc, command.get_about().unwrap_or(""))?;
    writeln!(
        text,
        "complete -c rvfence -n __fish_use_subcommand -f -a {} -d '{}'",
        command.get_name(),
        about.as_str()
    )
}

/// The lines for the arguments of a command.
fn write_fish_arguments(
    alloc: Global,
    command: &Command<'_>,
    text: &mut String,
) -> Result<(), AllocError> {
    for argument in command.get_arguments() {
        write_fish_argument(alloc, command.get_name(), argument, text)?;
    }
    Ok(())
}

/// How each line begins that is for an argument of this command.
fn write_fish_begin(command: &str, text: &mut String) -> Result<(), AllocError> {
    write!(
        text,
        "complete -c rvfence -n '__fish_seen_subcommand_from {}'",
        command
    )
}

/// A line for an argument of the command that must be one of some names.
fn write_fish_names(
    command: &str,
    argument: &Arg<'_>,
    text: &mut String,
) -> Result<(), AllocError> {
    if !has_names(argument) {
        return Ok(());
    }
    write_fish_begin(command, text)?;
    text.push_str(" -f -a '")?;
    write_names(argument, text)?;
    text.push_str("'\n")
}

/// A line for an option of the command, or for an argument that must be one of some names.
fn write_fish_argument(
    alloc: Global,
    command: &str,
    argument: &Arg<'_>,
    text: &mut String,
) -> Result<(), AllocError> {
    let Some(name) = argument.get_long() else {
        return write_fish_names(command, argument, text);
    };
    write_fish_begin(command, text)?;
    write_fish_form(argument, text)?;
    let help = quoted(alloc, argument.get_help().unwrap_or(""))?;
    writeln!(text, " -l {} -d '{}'", name, help.as_str())
}

/// The letter of an option, where it has one, and whether it takes a value.
fn write_fish_form(argument: &Arg<'_>, text: &mut String) -> Result<(), AllocError> {
    if let Some(short) = argument.get_short() {
        write!(text, " -s {}", short)?;
    }
    if argument.get_action().takes_values() {
        text.push_str(" -r")?;
    }
    Ok(())
}
