//! What arguments of `rd_host` ask for.
use crate::words::words_of;
use hosting::{HostFault, HostPlan, Network, Wanted, host_words};
use rd_base::{Peer, Starved, peer_text};
use std::alloc::Global;
use std::fmt::Write;

/// What the arguments after the bar ask for: workers, receives, addresses, and any other options;
/// or `refused`.
const WORDS: &str = "\
4 1000000000000 192.0.2.1:5683 | --listen 192.0.2.1:5683
4 1000000000000 [2001:db8::1]:61616 | --listen=[2001:db8::1]:61616
1 7 127.0.0.1:1 [::1]:65535 | --workers 1 --listen=127.0.0.1:1 --turns=7 --listen [::1]:65535
8 1000000000000 0.0.0.0:5683 [::]:5684 | --listen=0.0.0.0:5683 --listen=[::]:5684 --workers=8
4 1000000000000 127.0.0.1:1 127.0.0.1:1 | --listen=127.0.0.1:1 --listen=127.0.0.1:1
3 1 1.1.1.1:1 1.1.1.1:2 1.1.1.1:3 1.1.1.1:4 1.1.1.1:5 | --turns=1 --listen=1.1.1.1:1 \
--listen=1.1.1.1:2 --listen=1.1.1.1:3 --listen=1.1.1.1:4 --listen=1.1.1.1:5
4 1000000000000 127.0.0.1:1 above 1 | --listen=127.0.0.1:1 --begin 1
1 2 127.0.0.1:1 above 100000000000000 | --begin=100000000000000 --turns 2 --listen=127.0.0.1:1 \
--workers=1
4 1000000000000 127.0.0.1:1 allow 8 allow 32 allow 48 | --listen=127.0.0.1:1 --allow 10.0.0.0/8 \
--allow=192.0.2.1 --allow=2001:DB8:0::/48
4 1000000000000 127.0.0.1:1 trust 0 trust 128 | --listen=127.0.0.1:1 --trust=::/0 --trust ::1
4 1000000000000 127.0.0.1:1 share 0 criteria 0 | --listen=127.0.0.1:1 --share=0 --criteria 0
4 1000000000000 127.0.0.1:1 share 4096 criteria 768 | --listen=127.0.0.1:1 --share=4096 \
--criteria=768
1 1000000000000 [::1]:5683 127.0.0.1:5683 | --workers=1
4 1000000000000 [::1]:5683 127.0.0.1:5683 |
4 1000000000000 [::1]:5683 127.0.0.1:5683 above 1 | --begin=1
4 1000000000000 [::1]:5683 127.0.0.1:5683 quiet | --quiet
4 1000000000000 [::1]:5683 | --listen=[0:0::1]:5683
4 1000000000000 [2001:db8::1]:1 | --listen=[2001:0DB8:0:0:0:0:0:1]:1
4 1000000000000 127.0.0.1:1 lookups 65535 | --listen=127.0.0.1:1 --lookups=65535
4 1000000000000 192.0.2.1:5683 tcp 192.0.2.1:5683 connections 4 | --listen=192.0.2.1:5683 \
--tcp=192.0.2.1:5683
1 1000000000000 192.0.2.1:5683 tcp 192.0.2.1:5683 connections 15 | --listen=192.0.2.1:5683 \
--tcp=192.0.2.1:5683 --connections=15
help | --help
help | -h
version | --version
version | -V
refused | --listen=0.0.0.0:5683 --listen=[::]:5684 --workers=9
refused | --listen=127.0.0.1:1 --workers=17
refused | --listen=127.0.0.1:1 --workers=0
refused | --listen=127.0.0.1:1 --workers=01
refused | --listen=127.0.0.1:1 --workers=1 --workers=1
refused | --listen=127.0.0.1:1 --turns=0
refused | --listen=127.0.0.1:1 --turns=1000000000001
refused | --listen=127.0.0.1:1 --turns=1 --turns=1
refused | --listen=127.0.0.1:1 --begin=0
refused | --listen=127.0.0.1:1 --begin=100000000000001
refused | --listen=127.0.0.1:1 --begin=1 --begin=1
refused | --listen=127.0.0.1:1 --begin
refused | --listen=127.0.0.1:0
refused | --listen=127.0.0.1:65536
refused | --listen=127.0.0.1
refused | --listen=:5683
refused | --listen=localhost:5683
refused | --listen=::1:5683
refused | --listen=[127.0.0.1]:5683
refused | --listen=[::1:5683
refused | --listen=[::1]5683
refused | --listen=[::1]:05683
refused | --listen=127.0.0.1:1 --quiet --quiet
refused | --quiet=1
refused | --listen=[fe80::1%eth0]:5683
refused | --listen=127.0.0.1:1 --allow=10.0.0.0/33
refused | --listen=127.0.0.1:1 --allow=10.0.0/8
refused | --listen=127.0.0.1:1 --trust=::/129
refused | --listen=127.0.0.1:1 --trust=fe80::%eth0/64
refused | --listen=127.0.0.1:1 --share=4097
refused | --listen=127.0.0.1:1 --share=1 --share=2
refused | --listen=127.0.0.1:1 --criteria=769
refused | --listen=127.0.0.1:1 --lookups=65536
refused | --listen=192.0.2.1:5683 --tcp=192.0.2.1:5683 --connections=16
refused | --connections=2
refused | --listen
refused | --listen --listen=127.0.0.1:1
refused | --listen=127.0.0.1:1 --port=1
refused | --listen=127.0.0.1:1 --help
refused | --help --help
refused | --version --listen=127.0.0.1:1
refused | 127.0.0.1:1";

/// Writes addresses, with a label before each.
fn put_peers(text: &mut String, alloc: Global, label: &str, peers: &[Peer]) -> Result<(), Starved> {
    for peer in peers {
        let address = peer_text(alloc, peer)?;
        write!(text, "{label}{}", address.as_str())?;
    }
    Ok(())
}

/// Writes the prefixes' lengths of networks, with a label before each.
fn put_networks(text: &mut String, label: &str, networks: &[Network]) -> Result<(), Starved> {
    for network in networks {
        write!(text, "{label}{}", network.bits)?;
    }
    Ok(())
}

/// Writes a number with a label before it, unless it is 0.
fn put_number(text: &mut String, label: &str, number: u64) -> Result<(), Starved> {
    if number > 0 {
        write!(text, "{label}{number}")?;
    }
    Ok(())
}

/// Writes the limits of each source and of a lookup, unless they are the default ones.
fn put_limits(text: &mut String, share: u16, criteria: u16) -> Result<(), Starved> {
    if (share, criteria) != (1024, 16) {
        write!(text, " share {share} criteria {criteria}")?;
    }
    Ok(())
}

/// Writes a plan as a line of the table has it.
fn put_plan(text: &mut String, alloc: Global, plan: &HostPlan) -> Result<(), Starved> {
    let HostPlan {
        listen,
        workers,
        tcp,
        connections,
        turns,
        begin,
        allow,
        trust,
        share,
        criteria,
        lookups,
        quiet,
    } = plan;
    write!(text, "{workers} {turns}")?;
    put_peers(text, alloc, " ", listen.as_slice())?;
    put_peers(text, alloc, " tcp ", tcp.as_slice())?;
    put_number(text, " connections ", u64::from(*connections))?;
    if let Some(begin) = begin {
        write!(text, " above {begin}")?;
    }
    put_networks(text, " allow ", allow.as_slice())?;
    put_networks(text, " trust ", trust.as_slice())?;
    put_limits(text, *share, *criteria)?;
    put_number(text, " lookups ", u64::from(*lookups))?;
    Ok(text.push_str(if *quiet { " quiet" } else { "" })?)
}

/// Writes what arguments ask for.
fn put_wanted(
    text: &mut String,
    alloc: Global,
    wanted: &Result<Wanted, HostFault>,
) -> Result<(), Starved> {
    let word = match wanted {
        Ok(Wanted::Serve(plan)) => return put_plan(text, alloc, plan),
        Ok(Wanted::Help) => "help",
        Ok(Wanted::Version) => "version",
        Err(HostFault::Usage) => "refused",
        Err(HostFault::Starved) => "out of memory",
    };
    Ok(text.push_str(word)?)
}

/// Writes what the arguments of a line ask for.
fn put_answer(text: &mut String, alloc: Global, line: &str) -> Result<(), Starved> {
    let words = words_of(alloc, line)?;
    let wanted = host_words(alloc, words.as_slice());
    put_wanted(text, alloc, &wanted)
}

#[test]
fn words_name_addresses(rt: HostRuntime) -> Result<(), Starved> {
    let mut text = String::new(rt.alloc());
    for line in WORDS.lines() {
        let (wanted, words) = line.split_once(" |").unwrap_or((line, ""));
        text.clear();
        put_answer(&mut text, rt.alloc(), words)?;
        assert_eq!(rt; text.as_str(), wanted, "{line}");
    }
    Ok(())
}
