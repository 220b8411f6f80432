//! The arguments of a drill.

ghost use Rattle.std.specs.Prelude.{◌≡◌, ◌<◌, ◌^◌, ◌↔◌, ℕ, IfOk, IfSome, IsTrue, Some, codes, false};
ghost use Rattle.clap.specs.Words.{shape_of, rule_of, found_of, rows_of, first_of, one_of};
ghost use Rattle.fleet_tool.specs.DrillLine.{IsDrillTask, EncodesNumber, EncodesDrill, size_name, number_rule, size_rule, drill_shape};

use crate::help;
use clap::builder::ValueParser;
use clap::{Arg, ArgMatches, Command};
use fleet_drill::{MAX_NODES, MAX_WORKERS, Size};
use std::alloc::{AllocError, Global};

/// A drill: the number of nodes, the number of workers of each kind, and the size of its log.
#[derive(Clone, Copy)]
pub struct DrillTask {
    pub nodes: usize,
    pub workers: usize,
    pub size: Size,
}

impl DrillTask {
    /// Whether the numbers are in range: 1 to 6 nodes, and 1 to 16 workers of each kind.
    pub fn is_in_range(self) -> bool
        ensures { IsTrue result ↔ IsDrillTask self }
    {
        0 < self.nodes && self.nodes <= MAX_NODES && 0 < self.workers && self.workers <= MAX_WORKERS
    }
}

// An option that takes a number from 1 to `most`.
fn number_arg<'a>(
    alloc: Global,
    name: &'a str,
    letter: &'a str,
    help: &'a str,
    most: u64,
    usual: &'a str,
) -> Arg<'a>
    ensures rule { rule_of result ≡ number_rule name.entry.now most usual.entry.now }
    ensures own { result.global ≡ false }
{
    Arg::new(alloc, name)
        .long(name)
        .value_name(letter)
        .help(help)
        .value_parser(ValueParser::unsigned(1, most))
        .default_value(usual)
}

// The option that takes the size of the log.
fn size_arg<'a>(alloc: Global) -> Arg<'a>
    ensures rule { rule_of result ≡ size_rule }
    ensures own { result.global ≡ false }
{
    Arg::new(alloc, "size")
        .long("size")
        .value_name("S")
        .help(help::SIZE)
        .default_value("small")
}

/// The subcommand `drill`, with its options.
pub(crate) fn drill_command<'a>(alloc: Global) -> Result<Command<'a>, AllocError>
    ensures { IfOk result (λ c. shape_of c ≡ drill_shape) }
{
    Command::new(alloc, "drill")
        .about(help::DRILL_IN_A_LINE)
        .after_help(help::DRILL)
        .arg(number_arg(alloc, "nodes", "K", help::NODES, 6, "3"))?
        .arg(number_arg(alloc, "workers", "W", help::WORKERS, 16, "4"))?
        .arg(size_arg(alloc))
}

// The size of this name.
fn size_of(name: &str) -> Option<Size>
    ensures named { IfSome result (λ size. name.now ≡ size_name size) }
    ensures known { (size : Size) → name.now ≡ size_name size → result ≡ Some size }
{
    match name {
        "small" => Some(Size::Small),
        "large" => Some(Size::Large),
        _ => None,
    }
}

// The number given for an option.
fn number_in(options: &ArgMatches<'_>, id: &str) -> Option<usize>
    ensures encoded { IfSome result (EncodesNumber (one_of id.now (rows_of (found_of options.now)))) }
    ensures known { (n : ℕ) → n < 2 ^ 64 → EncodesNumber (one_of id.now (rows_of (found_of options.now))) n → result ≡ Some n }
{
    options.get_one::<usize>(id)
}

// The size that the options name.
fn size_in(options: &ArgMatches<'_>) -> Option<Size>
    ensures named { IfSome result (λ size. first_of (codes "size") (rows_of (found_of options.now)) ≡ Some (size_name size)) }
    ensures known { (size : Size) → first_of (codes "size") (rows_of (found_of options.now)) ≡ Some (size_name size) → result ≡ Some size }
{
    size_of(options.get_str("size")?)
}

/// The drill that the options encode, which may be out of range; None where they encode none.
pub(crate) fn drill_in(options: &ArgMatches<'_>) -> Option<DrillTask>
    ensures encoded { IfSome result (EncodesDrill (rows_of (found_of options.now))) }
    ensures known { (task : DrillTask) → IsDrillTask task → EncodesDrill (rows_of (found_of options.now)) task → result ≡ Some task }
{
    let nodes = number_in(options, "nodes")?;
    let workers = number_in(options, "workers")?;
    let size = size_in(options)?;
    Some(DrillTask {
        nodes,
        workers,
        size,
    })
}
