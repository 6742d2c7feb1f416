//! Texts of traces and histories that are tried here alone, with their answers and reports.

/// Dumps before and after a refused command, and after an accepted one.
pub const DUMPS: &[u8] =
    b"heap 16 8 4 2 2\n1 alloc 1.1 1\ndump\n1 drop 2.0\n1 store 1.1 0 1.1\ndump\n";

pub const DUMPS_ANSWERS: &[u8] =
    b"object 1\nrheap 2\nroots 1\n1.1 @0\nobjects 1\n@0 1 nil\nend\nrefused NoRoot\ndone\n\
        rheap 2\nroots 1\n1.1 @0\nobjects 1\n@0 1 @0\nend\n\
        total commands 3 refused 1 flips 0 rootwords 0\n";

/// A raw object that takes no reference, and is still raw where a flip has moved it.
pub const RAW_OBJECT: &[u8] =
    b"heap 64 8 8 2 2\n1 raw 1.0 2\n1 store 1.0 0 1.0\n1 store 1.0 2 1.0\n1 store 1.0 0 5\n\
        1 store 1.0 1 1.1\n1 store 1.0 0 2305843009213693952\nbegin\n1 alloc 1.1 1\n\
        1 store 1.1 0 1.0\n1 drop 1.0\nshade 1.1\ndeal copies 9 a\ngive a\ndeal copies 9 b\n\
        give b\nflip\ndump\n";

pub const RAW_OBJECT_ANSWERS: &[u8] =
    b"raw 2\nrefused RawField\nrefused NoField\ndone\ndone\nrefused IntRange\ncycle 1\n\
        object 1\ndone\ndone\nplaced\ndealt 1 passed 0\n\
        given joined 1 repeated 0 stale 0 placed 1\ndealt 2 passed 0\n\
        given joined 2 repeated 0 stale 0 placed 0\nflipped roots 1 live 7\nrheap 2\nroots 1\n\
        1.1 @0\nobjects 2\n@0 1 @1\n@1 raw 2 5 nil\nend\n\
        total commands 9 refused 3 flips 1 rootwords 1\n";

/// Spaces that get fewer words, and more than they had at first.
pub const RESIZED: &[u8] =
    b"heap 16 8 4 2 2\n1 alloc 1.0 2\nresize 16\nresize 8\nresize 4096\nresize 3\n\
        1 alloc 1.1 4000\nresize 4000\n";

pub const RESIZED_ANSWERS: &[u8] =
    b"object 2\nwords 16\nwords 8\nwords 4096\nrefused BadSpace\nobject 4000\n\
        refused Used 4006\ntotal commands 2 refused 0 flips 0 rootwords 0\n";

/// Tickets for an object that goes, told by one line, and room that is refused.
pub const WATCHED: &[u8] =
    b"heap 64 8 8 2 3\n1 alloc 1.0 0\ntickets 3\n1 watch 1.0\n1 watch 1.0\n1 drop 1.0\nbegin\n\
        flip\ngone\ngone\ntickets 2\ntickets 65537\nunwatch 0\n1 watch 1.0\n";

pub const WATCHED_ANSWERS: &[u8] =
    b"object 0\ntickets 3\nticket 0\nticket 1\ndone\ncycle 1\nflipped roots 0 live 0\ngone 0 1\n\
        gone none\nrefused Fewer 3\nrefused TooMany\nunwatched no\nrefused NotObject\n\
        total commands 2 refused 0 flips 1 rootwords 0\n";

/// A tray of 65 entries, for which credit is short too.
pub const TOO_MANY: &[u8] =
    b"heap 1024 56 8 2 2\n1 alloc 1.0 65\nbegin\n1 alloc 1.1 5\nshade 1.0\ndeal copies 64 a\n\
        deal copies 9 a\ngive a\nstat\n";

pub const TOO_MANY_ANSWERS: &[u8] =
    b"object 65\ncycle 1\nobject 5\nplaced\ndealt 64 passed 0\ndealt 1 passed 0\nrefused TooMany\n\
        stat used 74 free 950 cycle on epoch 1 number 0 log 0 granted 392 spent 68 placed 1 missing 65 idle 0\n\
        total commands 2 refused 0 flips 0 rootwords 0\n";

/// Trays that take 64 fields a deal, of two objects of 300, and are joined in both orders.
pub const LARGE_TRAYS: &[u8] =
    b"heap 1024 64 8 2 3\n1 alloc 1.0 300\n1 alloc 1.1 300\nbegin\n1 alloc 1.2 14\nshade 1.0\n\
        shade 1.1\ndeal copies 4294967295 a\ndeal copies 4294967295 a\ndeal copies 4294967295 a\n\
        deal copies 4294967295 a\ndeal copies 4294967295 a\ndeal copies 4294967295 b\n\
        deal copies 4294967295 b\ndeal copies 4294967295 b\ndeal copies 4294967295 b\n\
        deal copies 4294967295 b\n1 store 1.0 0 9\ndeal entries 9 b\njoin c a\njoin c b\n\
        join d b\njoin d a\ntrays\n";

pub const LARGE_TRAYS_ANSWERS: &[u8] =
    b"object 300\nobject 300\ncycle 1\nobject 14\nplaced\nplaced\ndealt 64 passed 0\n\
        dealt 64 passed 0\ndealt 64 passed 0\ndealt 64 passed 0\ndealt 64 passed 0\n\
        dealt 64 passed 0\ndealt 64 passed 0\ndealt 64 passed 0\ndealt 64 passed 0\n\
        dealt 24 passed 0\ndone\ndealt 1 passed 0\njoined 320\njoined 600\njoined 281\n\
        joined 600\ntray a epoch 1 entries 320\ntray b epoch 1 entries 281\n\
        tray c epoch 1 entries 600\ntray d epoch 1 entries 600\n\
        total commands 4 refused 0 flips 0 rootwords 0\n";

/// Trays of two epochs joined, listed in order of first use and given.
pub const TWO_EPOCHS: &[u8] =
    b"heap 64 8 8 2 2\n1 alloc 1.0 2\nbegin\n1 alloc 1.1 3\n1 drop 1.1\nshade 1.0\n\
        deal copies 9 z\ngive z\nflip\nbegin\n1 alloc 1.1 3\n1 drop 1.1\nshade 1.0\n\
        deal copies 1 m\njoin a z\njoin m z\njoin z m\ntrays\ngive z\ngive m\ngive a\n";

pub const TWO_EPOCHS_ANSWERS: &[u8] =
    b"object 2\ncycle 1\nobject 3\ndone\nplaced\ndealt 2 passed 0\n\
        given joined 2 repeated 0 stale 0 placed 0\nflipped roots 1 live 4\ncycle 2\nobject 3\n\
        done\nplaced\ndealt 1 passed 0\njoined 2\njoined 1\njoined 1\ntray z epoch 2 entries 1\n\
        tray m epoch 2 entries 1\ntray a epoch 1 entries 2\n\
        given joined 1 repeated 0 stale 0 placed 0\ngiven joined 0 repeated 1 stale 0 placed 0\n\
        refused StaleEpoch is 2 was 1\ntotal commands 5 refused 0 flips 1 rootwords 1\n";

/// An object that a root holds over four cycles, among 18 stores.
pub const FOUR_CYCLES: &[u8] =
    b"heap 64 8 8 2 2\n1 alloc 1.0 2\n1 store 1.0 0 1\n1 store 1.0 1 1.0\n1 store 1.0 0 2\n\
        1 store 1.0 0 3\n1 store 1.0 0 4\nbegin\n1 alloc 1.1 3\nshade 1.0\n1 store 1.0 0 5\n\
        1 store 1.0 0 6\n1 store 1.1 2 1.0\ndeal copies 9 a\n1 store 1.0 0 7\ngive a\n\
        deal entries 9 a\ngive a\nflip\nshade 1.1\ndeal copies 9 b\ngive b\nflip\nstat\n\
        1 store 1.0 1 1.1\n1 drop 1.1\nbegin\n1 alloc 1.1 7\n1 drop 1.1\nshade 1.0\n\
        1 store 1.0 0 11\ndeal copies 9 a\ndeal copies 9 c\n1 store 1.0 0 12\n1 store 1.0 0 13\n\
        give c\ndeal entries 1 d\njoin d c\njoin d d\njoin x x\ndeal entries 9 d\ngive d\nflip\n\
        deal copies 9 d\ngive d\nflip\nbegin\n1 alloc 1.1 7\n1 drop 1.1\n1 store 1.0 1 nil\n\
        1 store 1.0 0 15\nshade 1.0\ndeal copies 9 e\ngive e\ndeal entries 9 f\ngive f\n\
        1 store 1.0 0 16\nflip\ndeal entries 9 f\ngive f\nflip\nbegin\n1 alloc 1.1 0\n\
        1 store 1.0 1 1.1\n1 store 1.0 0 1.1\nshade 1.1\nshade 1.0\nshade 1.0\ndeal copies 9 g\n\
        deal copies 9 g\ngive g\n1 alloc 0.0 0\n1 drop 0.0\ngive g\nflip\nstat\n1 load 1.0 1.0 1\n\
        1 same 1.0 1.1\ntrays\n";

pub const FOUR_CYCLES_ANSWERS: &[u8] =
    b"object 2\ndone\ndone\ndone\ndone\ndone\ncycle 1\nobject 3\nplaced\ndone\ndone\ndone\n\
        dealt 2 passed 0\ndone\ngiven joined 1 repeated 0 stale 1 placed 0\ndealt 3 passed 1\n\
        given joined 1 repeated 1 stale 0 placed 0\nrefused RootUnplaced 1.1\nplaced\n\
        dealt 3 passed 0\ngiven joined 3 repeated 0 stale 0 placed 0\nflipped roots 2 live 9\n\
        stat used 9 free 55 cycle off epoch 2 number 9 log 0 granted 40 spent 27 placed 0 missing 0 idle 0\n\
        done\ndone\ncycle 2\nobject 7\ndone\nplaced\ndone\nrefused OtherEpoch\ndealt 2 passed 0\n\
        done\ndone\ngiven joined 1 repeated 0 stale 1 placed 1\ndealt 1 passed 0\njoined 2\n\
        joined 2\nrefused NoTray\ndealt 2 passed 0\ngiven joined 1 repeated 1 stale 0 placed 0\n\
        refused Missing 3\ndealt 3 passed 0\ngiven joined 3 repeated 2 stale 0 placed 0\n\
        flipped roots 1 live 9\ncycle 3\nobject 7\ndone\ndone\ndone\nplaced\ndealt 2 passed 0\n\
        given joined 2 repeated 0 stale 0 placed 0\ndealt 2 passed 0\n\
        given joined 0 repeated 2 stale 0 placed 0\ndone\nrefused Missing 1\ndealt 1 passed 0\n\
        given joined 1 repeated 1 stale 0 placed 0\nflipped roots 1 live 4\ncycle 4\nobject 0\n\
        done\ndone\nplaced\nplaced\nalready\ndealt 1 passed 0\ndealt 1 passed 0\n\
        refused CreditShort need 10 free 8\nobject 0\ndone\n\
        given joined 2 repeated 0 stale 0 placed 0\nflipped roots 2 live 6\n\
        stat used 6 free 58 cycle off epoch 5 number 18 log 0 granted 32 spent 12 placed 0 missing 0 idle 0\n\
        object 0\nsame yes\ntray a epoch 1 entries 2\ntray b epoch 1 entries 3\n\
        tray c epoch 2 entries 2\ntray d epoch 2 entries 5\ntray e epoch 3 entries 2\n\
        tray f epoch 3 entries 2\ntray g epoch 4 entries 2\n\
        total commands 30 refused 0 flips 4 rootwords 6\n";

/// The first line of a trace with 16 slots: 16 bytes. And a line of 16 bytes, with its answer.
pub const LONG_HEADER: &[u8] = b"heap 8 1 1 2 16\n";

pub const LONG_LINE: &[u8] = b"1 copy 1.0 1.15\n";

pub const LONG_ANSWER: &[u8] = b"nil\n";

/// A history of a raw object, and the report on it.
pub const RAW_HISTORY: &[u8] =
    b"history 2 2\n1 raw 1.0 2 = raw 2\n1 store 1.0 0 1.0 = refused RawField\n\
        1 store 1.0 0 5 = done\n1 copy 1.1 1.0 = raw 2\n1 load 1.0 1.1 0 = int 5\nend 5\n";

pub const RAW_HISTORY_REPORT: &[u8] = b"owner 1 calls 5\nlegal 5\n";
