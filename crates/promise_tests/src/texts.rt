//! The texts that are taken and put.

/// One shelf's build text.
pub(crate) const BUILD: &[u8; 136] =
    b"# what goes out\nhost = one.example.net\nport = 8080\nlog = /var/log/shelf ; as before\n\n# bytes of every sort: \x00\x7f\x80\xff\n[limits]\nbrought = 4096";

/// The other shelf's, which is the one's third document.
pub(crate) const OTHER_BUILD: &[u8; 136] =
    b"# what goes out\nhost = one.example.net\nport = 8081\nlog = /var/log/shelf ; as before\n\n# bytes of every sort: \x00\x7f\x80\xff\n[limits]\nbrought = 4096";

/// One byte more than a call may bring.
pub(crate) const LONGER: &[u8; 4097] = &[b'x'; 4097];
