//! The words of the command line.

ghost use Rattle.std.specs.Prelude.{◌≡◌, ◌≤◌, ℕ, IfOk, None, Some, codes, decimal, false, map, option_and_then};
ghost use Rattle.clap.specs.Words.{FailsBy, Text, app_of, first_value, found_of, new_app, one_text, rule_of};
ghost use Rattle.clap.specs.declared.builder.command.Command.TheViews.{out-Command as fields_of};
ghost use Rattle.vlm.specs.Words.{AskFor, Spells, cluster_command, group_rule, name_given, name_rule, nodes_rule, program_commands, watch_command, word_errors};

use clap::{Arg, ArgMatches, Command, Error, value_parser};
use std::alloc::{AllocError, Global};
use std::convert::AsStr;
use vlm_script::read_res;
use vlm_words::names::Name;
use vlm_words::resources::Domain;

const ABOUT: &str =
    "The lock manager of OpenVMS: lock modes, queues, value blocks, run from a script";

// The version that `vlm --version` and an installed package tell.
const VERSION: &str = "0.2.0";

const PLAY_ABOUT: &str =
    "Reads a script of lock requests from standard input and prints each answer";

const PLAY_HELP: &str = "\
Commands of a script, one a line:
  declare NAME node=N group=N quota=N blocks=N [syslck]
  enq NAME MODE name=RES block=N [parent=LOCK] [ast=N] [bast=N] [param=N] [flags] [bits=N]
  cvt NAME LOCK MODE block=N [ast=N] [bast=N] [param=N] [flags] [bits=N]
  deq NAME LOCK [value=HEX] [tail=HEX] [deqall] [cancel] [invvalblk] [bits=N]
  set NAME block=N value=HEX [tail=HEX]
  end NAME
  leave node=N
  search node=N
  ast NAME
  block NAME N
  tail NAME N
  show
  tails
The flags are valblk, noqueue, syncsts, system, expedite, quecvt, nodlckwt, nodlckblk and wide.
More flags are the bits of a number, bits=N, 0 to 65535.
A NAME is 1 to 15 letters, digits and underscores, the first a letter.
A MODE is NL, CR, CW, PR, PW or EX.
A RES is a name as it is, or x: and two hexadecimal digits for each of its bytes.
A LOCK is its number, or @N for the lock in status block N.
HEX is hexadecimal digits, 32 of them behind value= and 96 behind tail=. Nodes and blocks go from
0 to 255, groups and quotas from 0 to 65535, locks, routines and parameters from 0 to 4294967295.
A line that begins with # is a comment. A line has at most 255 bytes.

Example:
  vlm play <<END
  declare P node=1 group=1 quota=9 blocks=4
  enq P EX name=A block=1
  show
  END
prints
  P: process 65537
  P: NORMAL lock 1
  resource 1 in 0 group 1 name A value 00000000000000000000000000000000 valid
    granted 1 process 65537 EX";

const CLUSTER_ABOUT: &str =
    "Serves a script with a thread for each node, and prints what each node was told";

const NODES_HELP: &str = "How many nodes there are, 1 to 8";

const CLUSTER_HELP: &str = "\
The script is read from standard input. Its commands are those of `vlm play`, but for ast, block,
tail, show and tails. Nodes go from 1 to N.
A NAME is the process that its declare line gives: by the order of the node's declare lines, the
first process of node K is 65536 times K and 1, the second 65536 times K and 2, and so on.
Each step goes to the list of its node, which posts its list in order and departs behind it.
Which steps of other nodes come between those of a node may differ from run to run.

Printed is what each node was told, node by node and item by item:
  node K item J: ...
an answer, or an AST with its process, and last how many steps the journal has:
  journal M

Example:
  vlm cluster --nodes 1 <<END
  declare P node=1 group=1 quota=9 blocks=4
  enq P EX name=A block=1
  deq P @1
  END
prints
  node 1 item 1: process 65537
  node 1 item 2: NORMAL lock 1
  node 1 item 3: NORMAL
  node 1 item 4: NORMAL
  journal 4";

const WATCH_ABOUT: &str = "Watches a resource while a script's steps are made, one by one";

const NAME_HELP: &str = "The name of the resource, as in a script";

const GROUP_HELP: &str = "Its UIC group, 0 to 65535; without, it is of the system's domain";

const WATCH_HELP: &str = "\
The script is read from standard input. It is one that `vlm cluster --nodes 8` may have.
Its steps are made one by one, in the order of their lines.

Printed is what a watcher sees of the resource behind each step, by the step's line:
  line N held A B C D E F conversions X waiters Y value HEX VALID
How many locks hold NL, CR, CW, PR, PW and EX, how many conversions and how many new requests wait,
and the value block, valid or invalid. A resource that is not there has no locks and a valid value
block of zeros.

Example:
  vlm watch --name A --group 1 <<END
  declare P node=1 group=1 quota=9 blocks=4
  declare Q node=2 group=1 quota=9 blocks=4
  enq P EX name=A block=1
  enq Q EX name=A block=1
  deq P 1
  END
prints
  line 1 held 0 0 0 0 0 0 conversions 0 waiters 0 value 00000000000000000000000000000000 valid
  line 2 held 0 0 0 0 0 0 conversions 0 waiters 0 value 00000000000000000000000000000000 valid
  line 3 held 0 0 0 0 0 1 conversions 0 waiters 0 value 00000000000000000000000000000000 valid
  line 4 held 0 0 0 0 0 1 conversions 0 waiters 1 value 00000000000000000000000000000000 valid
  line 5 held 0 0 0 0 0 1 conversions 0 waiters 0 value 00000000000000000000000000000000 valid";

/// The root resource to watch.
#[derive(Clone, Copy)]
pub(crate) struct Subject {
    /// Its domain.
    pub(crate) domain: Domain,
    /// Its name; `None` if no resource can have the name in the words.
    pub(crate) name: Option<Name>,
}

/// The task that the words ask for.
#[derive(Clone, Copy)]
pub(crate) enum Task {
    /// Run a script.
    Play,
    /// Serve a script by this many nodes.
    Cluster(u8),
    /// Watch a resource while a script runs.
    Watch(Subject),
}

/// The task that the words ask for, or why they are refused.
pub(crate) fn chosen<S: AsStr>(alloc: Global, words: &[S]) -> Result<Task, Error>
    ensures fails { FailsBy (word_errors (map S.text words.now)) result }
    ensures asked { IfOk result (AskFor (map S.text words.now)) }
{
    let command = program_commands(alloc)?;
    let matches = command.try_get_matches_from(words)?;
    if let Some(options) = matches.subcommand_matches("cluster") {
        return Ok(Task::Cluster(nodes_of(options)));
    }
    match matches.subcommand_matches("watch") {
        Some(options) => Ok(Task::Watch(subject_of(options))),
        None => Ok(Task::Play),
    }
}

// The number of nodes of a cluster.
fn nodes_of(options: &ArgMatches<'_>) -> u8
    ensures within { (1 ≤ result) × (result ≤ 8) }
    ensures number { (n : ℕ) → 1 ≤ n → n ≤ 8
        → one_text (found_of options.now) (codes "nodes") ≡ Some (decimal n) → result ≡ n }
    ensures spelled { (text : Text) (n : ℕ) → Spells text n → 1 ≤ n → n ≤ 8
        → one_text (found_of options.now) (codes "nodes") ≡ Some text → result ≡ n }
{
    // The parser refuses any other number, so these bounds change nothing.
    options.get_one::<u8>("nodes").unwrap_or(2).clamp(1, 8)
}

// The resource to watch.
fn subject_of(options: &ArgMatches<'_>) -> Subject
    ensures name { result.name
        ≡ option_and_then name_given (first_value (found_of options.now) (codes "name")) }
    ensures group { (n : ℕ) → n ≤ 65535
        → one_text (found_of options.now) (codes "group") ≡ Some (decimal n)
        → result.domain ≡ Domain.Group n }
    ensures spelled { (text : Text) (n : ℕ) → Spells text n → n ≤ 65535
        → one_text (found_of options.now) (codes "group") ≡ Some text → result.domain ≡ Domain.Group n }
    ensures system { one_text (found_of options.now) (codes "group") ≡ None
        → result.domain ≡ Domain.System }
{
    Subject {
        domain: domain_of(options),
        name: name_of(options),
    }
}

// Its domain.
fn domain_of(options: &ArgMatches<'_>) -> Domain
    ensures group { (n : ℕ) → n ≤ 65535
        → one_text (found_of options.now) (codes "group") ≡ Some (decimal n)
        → result ≡ Domain.Group n }
    ensures spelled { (text : Text) (n : ℕ) → Spells text n → n ≤ 65535
        → one_text (found_of options.now) (codes "group") ≡ Some text → result ≡ Domain.Group n }
    ensures system { one_text (found_of options.now) (codes "group") ≡ None
        → result ≡ Domain.System }
{
    match options.get_one::<u16>("group") {
        Some(group) => Domain::Group(group),
        None => Domain::System,
    }
}

// Its name.
fn name_of(options: &ArgMatches<'_>) -> Option<Name>
    ensures { result
        ≡ option_and_then name_given (first_value (found_of options.now) (codes "name")) }
{
    match options.get_str("name") {
        Some(text) => name_given(text),
        None => None,
    }
}

// The name that this text has in a script, if a resource can have it.
fn name_given(text: &str) -> Option<Name>
    ensures { result ≡ name_given text.now }
{
    match read_res(text.as_bytes()) {
        Some(given) => given.name().ok(),
        None => None,
    }
}

// The program's commands, `play`, `cluster` and `watch`.
fn program_commands<'a>(alloc: Global) -> Result<Command<'a>, AllocError>
    ensures { IfOk result (λ command. app_of command ≡ program_commands) }
{
    let cluster = cluster_command(alloc)?;
    let watch = watch_command(alloc)?;
    Command::new(alloc, "vlm")
        .about(ABOUT)
        .version(VERSION)
        .subcommand_required(true)
        .subcommand(play_command(alloc))?
        .subcommand(cluster)?
        .subcommand(watch)
}

fn play_command<'a>(alloc: Global) -> Command<'a>
    ensures app { app_of result ≡ new_app (codes "play") }
    ensures local { (fields_of result).has_globals ≡ false }
{
    Command::new(alloc, "play")
        .about(PLAY_ABOUT)
        .after_help(PLAY_HELP)
}

fn cluster_command<'a>(alloc: Global) -> Result<Command<'a>, AllocError>
    ensures app { IfOk result (λ command. app_of command ≡ cluster_command) }
    ensures local { IfOk result (λ command. (fields_of command).has_globals ≡ false) }
{
    Command::new(alloc, "cluster")
        .about(CLUSTER_ABOUT)
        .after_help(CLUSTER_HELP)
        .arg(nodes_option(alloc))
}

fn nodes_option<'a>(alloc: Global) -> Arg<'a>
    ensures rule { rule_of result ≡ nodes_rule }
    ensures local { result.global ≡ false }
{
    Arg::new(alloc, "nodes")
        .long("nodes")
        .value_name("N")
        .value_parser(value_parser!(u8).range(1..=8))
        .default_value("2")
        .help(NODES_HELP)
}

fn watch_command<'a>(alloc: Global) -> Result<Command<'a>, AllocError>
    ensures app { IfOk result (λ command. app_of command ≡ watch_command) }
    ensures local { IfOk result (λ command. (fields_of command).has_globals ≡ false) }
{
    Command::new(alloc, "watch")
        .about(WATCH_ABOUT)
        .after_help(WATCH_HELP)
        .arg(name_option(alloc))?
        .arg(group_option(alloc))
}

fn name_option<'a>(alloc: Global) -> Arg<'a>
    ensures rule { rule_of result ≡ name_rule }
    ensures local { result.global ≡ false }
{
    Arg::new(alloc, "name")
        .long("name")
        .value_name("RES")
        .required(true)
        .help(NAME_HELP)
}

fn group_option<'a>(alloc: Global) -> Arg<'a>
    ensures rule { rule_of result ≡ group_rule }
    ensures local { result.global ≡ false }
{
    Arg::new(alloc, "group")
        .long("group")
        .value_name("G")
        .value_parser(value_parser!(u16))
        .help(GROUP_HELP)
}
