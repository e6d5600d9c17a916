// The counters of a service are printed.

use crate::stopping::{answers_of, ask};
use journal_commands::Fault;
use journal_records::{Answer, Counter, Opening, Refused, Request, VERSION};
use std::alloc::Global;
use std::io;
use std::io::Write;
use std::net::Net;
use std::os::unix::net::UnixStream;

// How many classes of lengths there are. The class k has those below 2^(k + 1) microseconds that no
// class below has, and the last has all others.
const CLASSES: u32 = 32;

/// How counters are printed.
#[derive(Clone, Copy, Debug, PartialEq, Eq)]
pub enum StatForm {
    /// A line each: its name and its value.
    Lines,
    /// As Prometheus reads them.
    Prometheus,
}

/// A counter as its readers see it.
#[derive(Clone, Copy)]
struct Row {
    // The number of the counter in the protocol.
    number: u32,
    name: &'static str,
    // Whether it never falls.
    rises: bool,
    help: &'static str,
}

const ROWS: [Row; 16] = [
    Row {
        number: 1,
        name: "commits",
        rises: true,
        help: "Commits",
    },
    Row {
        number: 2,
        name: "stable_commits",
        rises: true,
        help: "Commits that are known to be stable",
    },
    Row {
        number: 3,
        name: "groups",
        rises: true,
        help: "Groups that the log has taken",
    },
    Row {
        number: 4,
        name: "syncs",
        rises: true,
        help: "Syncs of the disk",
    },
    Row {
        number: 5,
        name: "log_positions_used",
        rises: false,
        help: "Positions of the log in use",
    },
    Row {
        number: 6,
        name: "log_positions",
        rises: false,
        help: "Positions that the log has",
    },
    Row {
        number: 7,
        name: "waits_for_room",
        rises: true,
        help: "Commits that waited for room in the log",
    },
    Row {
        number: 8,
        name: "conflicts",
        rises: true,
        help: "Transactions that were refused because a compared value was another",
    },
    Row {
        number: 9,
        name: "answers",
        rises: true,
        help: "Requests that were answered",
    },
    Row {
        number: 10,
        name: "connections_open",
        rises: false,
        help: "Connections that are open",
    },
    Row {
        number: 11,
        name: "connections_waiting",
        rises: false,
        help: "Open connections that have sent something and wait for their turn",
    },
    Row {
        number: 12,
        name: "connections",
        rises: true,
        help: "Connections that were taken",
    },
    Row {
        number: 13,
        name: "connections_crowded_out",
        rises: true,
        help: "Connections that were ended to make room for others",
    },
    Row {
        number: 14,
        name: "received_bytes",
        rises: true,
        help: "Bytes that came from clients",
    },
    Row {
        number: 15,
        name: "sent_bytes",
        rises: true,
        help: "Bytes that were sent to clients",
    },
    Row {
        number: 16,
        name: "uptime_seconds",
        rises: false,
        help: "Seconds since the disk was opened",
    },
];

// The counters of the lengths of one kind of work.
#[derive(Clone, Copy)]
struct Lengths {
    // The counter of the microseconds of all of it.
    micros: u32,
    // The counter of class 0. The others follow.
    first: u32,
    // The words before `_microseconds`, and for each class before `_from_`.
    name: &'static str,
    classes: &'static str,
    help: &'static str,
}

const LENGTHS: [Lengths; 2] = [
    Lengths {
        micros: 17,
        first: 64,
        name: "sync",
        classes: "syncs",
        help: "How long syncs of the disk took",
    },
    Lengths {
        micros: 18,
        first: 96,
        name: "group",
        classes: "groups",
        help: "How long groups of the log took, from the first write to the end of the sync",
    },
];

// The kind of a counter.
#[derive(Clone, Copy)]
enum Kind {
    // A row of its own.
    Row(Row),
    // The microseconds of all work of a kind.
    Micros(Lengths),
    // A class of the lengths of a kind of work, by its number.
    Class(Lengths, u32),
    // This program does not know it.
    Other,
}

// The answer of a service to who asks for its counters.
#[derive(Drop)]
struct Told {
    opening: Opening,
    counters: Vec<Counter>,
}

/// Prints what the service at the socket has counted since it opened its disk.
///
/// # Errors
///
/// Refused where no service answers there, where it speaks version 1 of the protocol alone, and
/// where the output fails. The service is as it was.
pub fn stat<'w, R: Net, O: Write>(
    rt: &R,
    alloc: Global,
    socket: &'w str,
    form: StatForm,
    output: &mut O,
) -> Result<(), Fault<'w>> {
    let told = ask_for_counters(rt, alloc, socket)?;
    let printed = match form {
        StatForm::Lines => print_lines(&told, output),
        StatForm::Prometheus => print_for_prometheus(&told, output),
    };
    match printed.and_then(|()| output.flush()) {
        Ok(()) => Ok(()),
        Err(_) => Err(Fault::CannotWrite),
    }
}

// Asks the service at the socket for its opening and its counters.
fn ask_for_counters<'w, R: Net>(rt: &R, alloc: Global, socket: &'w str) -> Result<Told, Fault<'w>> {
    let mut stream = match UnixStream::connect(rt, socket) {
        Ok(stream) => stream,
        Err(why) => return Err(Fault::File { path: socket, why }),
    };
    let mut records = answers_of(alloc);
    let hello = Request::Hello(VERSION);
    let opening = match ask(alloc, &mut stream, &mut records, &hello, socket)? {
        Answer::Opening(opening) => opening,
        Answer::Refused(Refused::OtherVersion) => return Err(Fault::CountsNothing { socket }),
        _ => return Err(Fault::NoAnswer { socket }),
    };
    match ask(alloc, &mut stream, &mut records, &Request::Counters, socket)? {
        Answer::Counters(counters) => Ok(Told { opening, counters }),
        _ => Err(Fault::NoAnswer { socket }),
    }
}

fn print_lines<O: Write>(told: &Told, output: &mut O) -> io::Result<()> {
    let opening = &told.opening;
    writeln!(output, "opening {:016x}", opening.number)?;
    writeln!(output, "blocks {}\nslots {}", opening.blocks, opening.slots)?;
    for counter in told.counters.iter() {
        print_line(counter, output)?;
    }
    Ok(())
}

// Prints a counter. One that this program does not know is printed by its number.
fn print_line<O: Write>(counter: &Counter, output: &mut O) -> io::Result<()> {
    let Counter { name, value } = *counter;
    match kind_of(name) {
        Kind::Row(row) => writeln!(output, "{} {value}", row.name),
        Kind::Micros(lengths) => writeln!(output, "{}_microseconds {value}", lengths.name),
        Kind::Class(lengths, class) => {
            let least = least_micros(class);
            writeln!(
                output,
                "{}_from_{least}_microseconds {value}",
                lengths.classes
            )
        }
        Kind::Other => writeln!(output, "counter_{name} {value}"),
    }
}

fn print_for_prometheus<O: Write>(told: &Told, output: &mut O) -> io::Result<()> {
    let number = told.opening.number;
    writeln!(
        output,
        "# HELP jnl_opening_info The number of the opening\n# TYPE jnl_opening_info gauge\njnl_opening_info{{number=\"{number:016x}\"}} 1"
    )?;
    for counter in told.counters.iter() {
        if let Some(row) = row_of(counter.name) {
            print_metric(row, counter.value, output)?;
        }
    }
    for lengths in LENGTHS.iter() {
        if is_told(told, lengths.micros) {
            print_histogram(*lengths, told, output)?;
        }
    }
    Ok(())
}

fn print_metric<O: Write>(row: Row, value: u64, output: &mut O) -> io::Result<()> {
    let (total, kind) = if row.rises {
        ("_total", "counter")
    } else {
        ("", "gauge")
    };
    let name = row.name;
    writeln!(output, "# HELP jnl_{name}{total} {}", row.help)?;
    writeln!(output, "# TYPE jnl_{name}{total} {kind}")?;
    writeln!(output, "jnl_{name}{total} {value}")
}

// Prints the lengths of a kind of work as a histogram, whose buckets have all work up to a length.
fn print_histogram<O: Write>(lengths: Lengths, told: &Told, output: &mut O) -> io::Result<()> {
    let Lengths {
        micros,
        first: _,
        name,
        classes: _,
        help,
    } = lengths;
    writeln!(
        output,
        "# HELP jnl_{name}_microseconds {help}\n# TYPE jnl_{name}_microseconds histogram"
    )?;
    let all = print_buckets(lengths, told, output)?;
    writeln!(
        output,
        "jnl_{name}_microseconds_sum {}",
        value_of(told, micros)
    )?;
    writeln!(output, "jnl_{name}_microseconds_count {all}")
}

// Prints its buckets, and answers how much work all of them have.
fn print_buckets<O: Write>(lengths: Lengths, told: &Told, output: &mut O) -> io::Result<u64> {
    let Lengths { first, name, .. } = lengths;
    let mut shorter: u64 = 0;
    for class in 0..CLASSES {
        shorter = shorter.saturating_add(value_of(told, first.saturating_add(class)));
        if class + 1 < CLASSES {
            let most = least_micros(class + 1).saturating_sub(1);
            writeln!(
                output,
                "jnl_{name}_microseconds_bucket{{le=\"{most}\"}} {shorter}"
            )?;
        }
    }
    writeln!(
        output,
        "jnl_{name}_microseconds_bucket{{le=\"+Inf\"}} {shorter}"
    )?;
    Ok(shorter)
}

// The row of a counter that is one of its own.
fn row_of(number: u32) -> Option<Row> {
    ROWS.iter().find(|row| row.number == number).copied()
}

// The value of a counter, or 0 where the service does not count it.
fn value_of(told: &Told, number: u32) -> u64 {
    match told.counters.iter().find(|counter| counter.name == number) {
        Some(counter) => counter.value,
        None => 0,
    }
}

// True if the service counts that.
fn is_told(told: &Told, number: u32) -> bool {
    told.counters.iter().any(|counter| counter.name == number)
}

// The kind of the counter of this number.
fn kind_of(number: u32) -> Kind {
    if let Some(row) = row_of(number) {
        return Kind::Row(row);
    }
    for lengths in LENGTHS.iter() {
        if number == lengths.micros {
            return Kind::Micros(*lengths);
        }
        match number.checked_sub(lengths.first) {
            Some(class) if class < CLASSES => return Kind::Class(*lengths, class),
            _ => {}
        }
    }
    Kind::Other
}

// How many microseconds a length of the class is at least.
fn least_micros(class: u32) -> u64 {
    match class {
        0 => 0,
        class => 1u64.checked_shl(class).unwrap_or(u64::MAX),
    }
}
