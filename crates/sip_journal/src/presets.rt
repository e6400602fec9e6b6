//! Forms of lines that logs have, by a name. They are written from memory of such logs: docs/MAKE-A-JOURNAL.md.
//! Each expression begins at the line's head, so that no text of a message is taken for the mark of a side.

use crate::chosen::{LogForm, LogLayout};
use log_pairs::Escapes;

/// What a form has where nothing else is said: one message a line, each byte as it is.
pub const PLAIN: LogForm<'static> = LogForm {
    request: "",
    response: "",
    connection: None,
    mark: None,
    layout: LogLayout::Single,
    escapes: Escapes::Bare,
};

/// All presets. Of two that fit a log alike the first is named first.
pub static PRESETS: [(&str, LogForm<'static>); 11] = [
    // [2026/03/07 09:02:10] [DEBUG] desk2@10.0.0.7: INPUT MSG: '2300120260307    090210AO..|AA..|'
    (
        "koha-log4perl",
        LogForm {
            request: r"^\[[^\]]*\] \[[^\]]*\] \S+: INPUT MSG: '(.*)'",
            response: r"^\[[^\]]*\] \[[^\]]*\] \S+: OUTPUT MSG: '(.*)'",
            connection: Some(r"^\[[^\]]*\] \[[^\]]*\] (\S+): "),
            ..PLAIN
        },
    ),
    // Mar  7 09:02:10 host koha_sip[1234]: INPUT MSG: '2300120260307    090210AO..|AA..|'
    (
        "koha-syslog",
        LogForm {
            request: r"^\w+ +\d+ [0-9:]+ \S+ \S+\[\d+\]: INPUT MSG: '(.*)'",
            response: r"^\w+ +\d+ [0-9:]+ \S+ \S+\[\d+\]: OUTPUT MSG: '(.*)'",
            connection: Some(r"^[^\[]*\[(\d+)\]:"),
            ..PLAIN
        },
    ),
    // 2026-03-07T09:02:10-05:00 brick1 SIPServer[1234]: [INFO] INPUT MSG: '2300120260307    090210AO..|AA..|'
    (
        "evergreen",
        LogForm {
            request: r"^\d+-\d+-\d+T\S+ \S+ \S+\[\d+\]: (?:\[\w+\] )?INPUT MSG: '(.*)'",
            response: r"^\d+-\d+-\d+T\S+ \S+ \S+\[\d+\]: (?:\[\w+\] )?OUTPUT MSG: '(.*)'",
            connection: Some(r"^[^\[]*\[(\d+)\]:"),
            ..PLAIN
        },
    ),
    // Mar  7 09:02:10 host sipserver[1234]: recv: 2300120260307    090210AO..|AA..|#015
    (
        "rsyslog",
        LogForm {
            request: r"^[^\[]*\[\d+\]: (?i:recv|received|read|in|<-|<<|<):? ?(.*?)(?:#01[25])*$",
            response: r"^[^\[]*\[\d+\]: (?i:send|sent|write|out|->|>>|>):? ?(.*?)(?:#01[25])*$",
            connection: Some(r"^[^\[]*\[(\d+)\]:"),
            escapes: Escapes::Octal,
            ..PLAIN
        },
    ),
    // 2026-03-07 09:02:10,120 INFO mediator: 10.0.0.7:49152 >>> 2300120260307    090210AO..|AA..|<CR>
    (
        "mediator",
        LogForm {
            request: r"^\S+ \S+ \w+ [^:]*: \S+ (?:>>>|(?i:read|received)):? ?(.*?)(?:<CR>|<LF>)*$",
            response: r"^\S+ \S+ \w+ [^:]*: \S+ (?:<<<|(?i:sent|wrote)):? ?(.*?)(?:<CR>|<LF>)*$",
            connection: Some(r"^\S+ \S+ \w+ [^:]*: (\S+) "),
            escapes: Escapes::Angle,
            ..PLAIN
        },
    ),
    // {"__REALTIME_TIMESTAMP":"1772874130120000","_HOSTNAME":"host","_PID":"1234","MESSAGE":"INPUT MSG: '23001..|AA..|'"}
    (
        "journald",
        LogForm {
            request: r"^\S+ \S+ \S+\[\d+\]: INPUT MSG: '(.*)'",
            response: r"^\S+ \S+ \S+\[\d+\]: OUTPUT MSG: '(.*)'",
            connection: Some(r"^[^\[]*\[(\d+)\]:"),
            layout: LogLayout::Json,
            ..PLAIN
        },
    ),
    // 2026-03-07T09:02:10.120 DESK2 received, and the message on the next line
    (
        "two-line",
        LogForm {
            request: r"^\S+ \S+ (?i:received|request)[^\n]*\n(.*)$",
            response: r"^\S+ \S+ (?i:sent|response)[^\n]*\n(.*)$",
            connection: Some(r"^\S+ (\S+) "),
            mark: Some(r"^\S+ \S+ (?i:received|request|sent|response)[: ]*$"),
            ..PLAIN
        },
    ),
    // 2026-03-07T09:02:10.120 DESK2 [2300120260307    090210AO..|AA..|] => [24..]
    (
        "pair",
        LogForm {
            request: r"^\S+ \S+ \[(.*?)\] => \[",
            response: r"\] => \[(.*)\]$",
            connection: Some(r"^\S+ (\S+) "),
            layout: LogLayout::Pair,
            ..PLAIN
        },
    ),
    // 2026-03-07T09:02:10.120 DESK2 <- 2300120260307    090210AO..|AA..|
    (
        "arrows",
        LogForm {
            request: r"^\S+ \S+ <- (.*)$",
            response: r"^\S+ \S+ -> (.*)$",
            connection: Some(r"^\S+ (\S+) "),
            escapes: Escapes::Backslash,
            ..PLAIN
        },
    ),
    // Mar  7 09:02:10 host sip[1234]: INPUT MSG: '2300120260307    090210AO..|AA..|'
    (
        "input-output",
        LogForm {
            request: "^[^']*INPUT MSG: '(.*)'",
            response: "^[^']*OUTPUT MSG: '(.*)'",
            connection: Some(r"^[^']*?\[([0-9]+)\]:"),
            ..PLAIN
        },
    ),
    // 09:02:10 [10.0.0.7:49152] received: 2300120260307    090210AO..|AA..|<CR>
    (
        "received-sent",
        LogForm {
            request: r"(?i)^[^\]]*\] (?:received|recv): ?(.*)$",
            response: r"(?i)^[^\]]*\] sent: ?(.*)$",
            connection: Some(r"^[^\[]*\[([^\]]+)\]"),
            escapes: Escapes::Angle,
            ..PLAIN
        },
    ),
];
