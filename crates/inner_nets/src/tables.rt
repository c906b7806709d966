// The inner networks of each family.
use nets::{IPV4, IPV6, Net};

macro_rules! net {
    ($family:expr, $hi:expr, $lo:expr, $len:expr) => {
        Net {
            family: $family,
            hi: $hi,
            lo: $lo,
            len: $len,
        }
    };
}

// 10/8, 127/8, 100.64/10, 172.16/12, 169.254/16, 192.168/16.
pub(crate) static INNER4: [Net; 6] = [
    net!(IPV4, 0, 0x0a000000, 8),
    net!(IPV4, 0, 0x7f000000, 8),
    net!(IPV4, 0, 0x64400000, 10),
    net!(IPV4, 0, 0xac100000, 12),
    net!(IPV4, 0, 0xa9fe0000, 16),
    net!(IPV4, 0, 0xc0a80000, 16),
];

// fc00::/7, fe80::/10, ::ffff:0:0/96, ::1/128.
pub(crate) static INNER6: [Net; 4] = [
    net!(IPV6, 0xfc00000000000000, 0, 7),
    net!(IPV6, 0xfe80000000000000, 0, 10),
    net!(IPV6, 0, 0x0000ffff00000000, 96),
    net!(IPV6, 0, 1, 128),
];
