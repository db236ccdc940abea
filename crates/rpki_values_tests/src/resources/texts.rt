//! Rows of printed texts.

use crate::reads::{All, is_printed};
use rpki_resources::{Addr, AddressFamily, AsBlock, Asn, IpBlock, MaxLenPrefix, Prefix};
use std::alloc::{AllocError, Global};

/// The addresses that `tools/addresses.py table` prints, with the texts that Python has for them.
static TEXTS: [(AddressFamily, u128, &str); 40] = [
    (
        AddressFamily::Ipv6,
        0x00000000000000000000000000000000,
        "::",
    ),
    (
        AddressFamily::Ipv6,
        0x00000000000000000000000000000001,
        "::1",
    ),
    (
        AddressFamily::Ipv6,
        0x00010000000000000000000000000000,
        "1::",
    ),
    (
        AddressFamily::Ipv6,
        0x20010db8000000000000000000000000,
        "2001:db8::",
    ),
    (
        AddressFamily::Ipv6,
        0x20010db8000000000000000000000001,
        "2001:db8::1",
    ),
    (
        AddressFamily::Ipv6,
        0x00010002000300040005000600070008,
        "1:2:3:4:5:6:7:8",
    ),
    (
        AddressFamily::Ipv6,
        0x00010000000300040005000600070008,
        "1:0:3:4:5:6:7:8",
    ),
    (
        AddressFamily::Ipv6,
        0x00010000000000040005000000000008,
        "1::4:5:0:0:8",
    ),
    (
        AddressFamily::Ipv6,
        0x00000000000300040005000600000000,
        "::3:4:5:6:0:0",
    ),
    (
        AddressFamily::Ipv6,
        0x00010000000000040000000000000008,
        "1:0:0:4::8",
    ),
    (
        AddressFamily::Ipv6,
        0x00010000000000000005000000000008,
        "1::5:0:0:8",
    ),
    (
        AddressFamily::Ipv6,
        0x00000002000000040000000600000008,
        "0:2:0:4:0:6:0:8",
    ),
    (
        AddressFamily::Ipv6,
        0x00000000000000000000ffffc0000201,
        "::ffff:c000:201",
    ),
    (
        AddressFamily::Ipv6,
        0x000000000000000000000000c0000201,
        "::c000:201",
    ),
    (
        AddressFamily::Ipv6,
        0xfe800000000000000000000000000000,
        "fe80::",
    ),
    (
        AddressFamily::Ipv6,
        0xff020000000000000000000000000001,
        "ff02::1",
    ),
    (
        AddressFamily::Ipv6,
        0x00000000000300040005000600070008,
        "::3:4:5:6:7:8",
    ),
    (
        AddressFamily::Ipv6,
        0x00010002000300040005000600000000,
        "1:2:3:4:5:6::",
    ),
    (
        AddressFamily::Ipv6,
        0x00010000000000040005000600070008,
        "1::4:5:6:7:8",
    ),
    (
        AddressFamily::Ipv6,
        0x00000001000000000000000000000000,
        "0:1::",
    ),
    (
        AddressFamily::Ipv6,
        0xffffffffffffffffffffffffffffffff,
        "ffff:ffff:ffff:ffff:ffff:ffff:ffff:ffff",
    ),
    (
        AddressFamily::Ipv6,
        0x001002003000000a00b00c00d000000f,
        "10:200:3000:a:b0:c00:d000:f",
    ),
    (
        AddressFamily::Ipv4,
        0x00000000000000000000000000000000,
        "0.0.0.0",
    ),
    (
        AddressFamily::Ipv4,
        0xffffffff000000000000000000000000,
        "255.255.255.255",
    ),
    (
        AddressFamily::Ipv4,
        0x0a000000000000000000000000000000,
        "10.0.0.0",
    ),
    (
        AddressFamily::Ipv4,
        0xc0000201000000000000000000000000,
        "192.0.2.1",
    ),
    (
        AddressFamily::Ipv4,
        0x7f000001000000000000000000000000,
        "127.0.0.1",
    ),
    (
        AddressFamily::Ipv4,
        0x01020304000000000000000000000000,
        "1.2.3.4",
    ),
    (
        AddressFamily::Ipv4,
        0x64400000000000000000000000000000,
        "100.64.0.0",
    ),
    (
        AddressFamily::Ipv4,
        0xcb0071ff000000000000000000000000,
        "203.0.113.255",
    ),
    (
        AddressFamily::Ipv6,
        0x00040000000c0000dfad000800004990,
        "4:0:c:0:dfad:8:0:4990",
    ),
    (
        AddressFamily::Ipv6,
        0x0000de21000000000000000000000000,
        "0:de21::",
    ),
    (
        AddressFamily::Ipv4,
        0xe0735930000000000000000000000000,
        "224.115.89.48",
    ),
    (
        AddressFamily::Ipv6,
        0x00000000000026eb000700040000d74a,
        "::26eb:7:4:0:d74a",
    ),
    (
        AddressFamily::Ipv6,
        0xee5a0000584f0000000f0000b8a60000,
        "ee5a:0:584f:0:f:0:b8a6:0",
    ),
    (
        AddressFamily::Ipv6,
        0x000008e4000047ac9ae680c21b17064e,
        "0:8e4:0:47ac:9ae6:80c2:1b17:64e",
    ),
    (
        AddressFamily::Ipv4,
        0xd08cae17000000000000000000000000,
        "208.140.174.23",
    ),
    (
        AddressFamily::Ipv6,
        0x000000020000877e0000000c00000000,
        "0:2:0:877e:0:c::",
    ),
    (
        AddressFamily::Ipv6,
        0x0000000c0000530f000051d000040000,
        "0:c:0:530f:0:51d0:4:0",
    ),
    (
        AddressFamily::Ipv6,
        0x0000000000080000000500000000b58e,
        "::8:0:5:0:0:b58e",
    ),
];

/// A prefix, and its text.
static PREFIXES: [(AddressFamily, u128, u8, &str); 5] = [
    (AddressFamily::Ipv4, 0xC000_02FF << 96, 24, "192.0.2.0/24"),
    (AddressFamily::Ipv4, 0xC000_0201 << 96, 32, "192.0.2.1/32"),
    (AddressFamily::Ipv6, u128::MAX, 0, "::/0"),
    (AddressFamily::Ipv6, 1, 128, "::1/128"),
    (AddressFamily::Ipv6, 0x2001_0DB8 << 96, 32, "2001:db8::/32"),
];

/// Whether the rows are printed so.
fn are_rows(alloc: Global) -> Result<bool, AllocError> {
    for (family, bits, want) in &TEXTS {
        if !is_printed(alloc, &Addr::from_bits(*bits).display(*family), want)? {
            return Ok(false);
        }
    }
    for (family, bits, len, want) in &PREFIXES {
        let prefix = Prefix::new(Addr::from_bits(*bits), *len);
        if !is_printed(alloc, &prefix.display(*family), want)?
            || !is_printed(alloc, &IpBlock::Prefix(prefix).display(*family), want)?
        {
            return Ok(false);
        }
    }
    Ok(true)
}

/// The entry of 192.0.2.0/24 with this maximum length.
fn entry(max_len: Option<u8>) -> MaxLenPrefix {
    MaxLenPrefix {
        family: AddressFamily::Ipv4,
        prefix: Prefix::new(Addr::from_bits(0xC000_0200 << 96), 24),
        max_len,
    }
}

#[test]
fn texts(rt: HostRuntime) -> Result<(), AllocError> {
    let alloc = rt.alloc();
    let (ten, twenty) = (Asn::from_u32(10), Asn::from_u32(20));
    let first = Addr::from_bits(0x0A00_0000 << 96);
    let last = Addr::from_bits((0x0A00_0003 << 96) - 1);
    let block = IpBlock::from_range(first, last).display(AddressFamily::Ipv4);
    let all = All::new()
        .and(are_rows(alloc))
        .and(is_printed(alloc, &block, "10.0.0.0-10.0.0.2"))
        .and(is_printed(alloc, &entry(Some(26)), "192.0.2.0/24-26"))
        .and(is_printed(alloc, &entry(None), "192.0.2.0/24"))
        .and(is_printed(alloc, &AsBlock::Id(Asn::MAX), "AS4294967295"))
        .and(is_printed(alloc, &AsBlock::Range(ten, twenty), "AS10-AS20"));
    assert!(rt; all.end()?);
    Ok(())
}
