//! The language of a session in short.

/// What `help` answers.
pub(crate) const HELP: &[u8] = b"\
heap WORDS RATIO LOG OWNERS SLOTS   the heap of the session, typed first: heap 64 8 8 2 2
OWNER alloc ROOT FIELDS             a new object; a root is OWNER.SLOT: 1 alloc 1.0 2
OWNER raw ROOT FIELDS               a new object without references
OWNER load ROOT ROOT FIELD          the first root takes what the field holds
OWNER store ROOT FIELD OPERAND      the field takes nil, a root's value or a number
OWNER copy ROOT ROOT                the first root takes what the second holds
OWNER same ROOT ROOT                whether both hold the same
OWNER drop ROOT                     the root becomes nil
begin, shade ROOT                   a cycle begins; a root's object is placed
deal copies N TRAY, deal entries N TRAY, give TRAY, join TRAY TRAY
flip, recall, abandon, idle N       a cycle ends; it deals again; it is given up; it gets N units
resize WORDS                        both spaces get so many words
tickets N, OWNER watch ROOT, unwatch T, gone
stat, dump, trays                   what is there
cycles                              the cycles that ended, a line each
draw FILE                           a picture of the heap, in SVG
help                                this text
";
