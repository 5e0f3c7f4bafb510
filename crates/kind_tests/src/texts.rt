//! The texts that are put, taken and added: each has lines, and is longer than the 64 bytes of a leaf.

pub(crate) const BUILD: &[u8; 309] =
    b"# live settings\nhost = shelf.example.net\nport = 8080\nlog = /var/log/shelf\nretries = 5\n\n\
[limits]\nbytes = 16777216\nrecords = 65536\nplaces = 4095\nbrought = 4096\n\n\
[names]\nfirst = Z\xc3\xa9mor\nsecond = Karp and Rabin\nthird = Hinze and Paterson\n\n\
# end of the settings that stand in memory, with no newline behind them: \xfe\xff";

pub(crate) const NAMES: &[u8; 139] =
    b"mirror = one.example.net\nmirror = two.example.net\nmirror = three.example.net\n\
mirror = four.example.net\nmirror = five.example.net ; the last";

pub(crate) const FIRST: &[u8; 101] =
    b"a draft begins here, with a line that is longer than one leaf of a tree, which holds 64 bytes\n~tilde\n";

pub(crate) const SECOND: &[u8; 75] =
    b"\x01 is the lowest byte of all, and it stands in the draft's second part\n\n\nend";

/// One byte more than a call may bring.
pub(crate) const LONGER: &[u8; 4097] = &[b'x'; 4097];
