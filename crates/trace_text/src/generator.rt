//! The trace that is generated for a number of devices. Each device registers and is served at
//! once, and an observer follows each tenth.
ghost use Rattle.std.specs.Prelude.{◌≡◌, ◌+◌, ◌*◌, ◌%◌, false, ◌<◌, ◌≤◌, [], ◌∷◌, ◌++◌, length};
ghost use Rattle.std.specs.Prelude.{codes, decimal, IfOk, OnOk};
ghost use Rattle.std.specs.String.{string_bytes};
ghost use Rattle.message_model.specs.Codes as codes_of;
ghost use Rattle.message_model.specs.Message.{end_number};
ghost use Rattle.message_model.specs.declared.messages.Kind4.TheVariants as kind;
ghost use Rattle.message_model.specs.OptionTable as table;
ghost use Rattle.message_model.specs.Spelling.{spelling};
ghost use Rattle.coap_message.specs.PartialMessages.{bare_message, with_last_option, with_payload};
ghost use Rattle.line_model.specs.declared.lines.Line.TheVariants as line_kind;
ghost use Rattle.line_model.specs.Lines.{line_text};
ghost use Rattle.line_model.specs.Texts.{line_feed};
ghost use Rattle.line_model.specs.Generator as generator;

use crate::line_printer::{come_print, go_print, tick_print};
use coap_message::{Kind4, TokenRef, Writer};
use message_model::codes::{GET, POST};
use message_model::options::{OBSERVE, URI_PATH, URI_QUERY};
use rd_base::{Bytes, Host, Moment, Peer, Starved};
use std::alloc::Global;

/// The milliseconds from one device to the next.
const PACE: u64 = 200;

/// Returns the peer of a device: the address 10.0 and its number in two octets, at the port of
/// CoAP.
fn device(i: u16) -> Peer
    ensures { result ≡ generator.device i }
{
    Peer {
        host: Host::V4([10, 0, (i / 256) as u8, (i % 256) as u8]),
        port: 5683,
    }
}

/// Returns the peer of the observers.
fn onlooker() -> Peer
    ensures { result ≡ generator.onlooker }
{
    Peer {
        host: Host::V4([10, 1, 0, 1]),
        port: 40000,
    }
}

/// Returns the lifetime that a device requests, in seconds: 60 to 3,659.
fn lifetime(i: u16) -> u32
    ensures { result ≡ generator.lifetime i }
{
    60 + 611 * u32::from(i) % 3600
}

/// Returns the links of a device, the second of one of seven kinds.
fn device_links(alloc: Global, i: u16) -> Result<String, Starved>
    ensures { IfOk result (λ text. string_bytes text ≡ generator.device_links i) }
{
    let path = i % 10;
    let kind = i % 7;
    let mut text = String::with_capacity(alloc, 40)?;
    write!(text, "</t>;rt=\"temp\",</s{path}>;rt=\"kind{kind}\"")?;
    Ok(text)
}

/// Returns the name of a device, as a query option (RFC 9176 section 5).
fn name_query(alloc: Global, i: u16) -> Result<String, Starved>
    ensures { IfOk result (λ text. string_bytes text ≡ codes "ep=dev" ++ decimal i) }
{
    let mut text = String::with_capacity(alloc, 16)?;
    write!(text, "ep=dev{i}")?;
    Ok(text)
}

/// Returns its lifetime, as a query option (RFC 9176 section 5).
fn lifetime_query(alloc: Global, i: u16) -> Result<String, Starved>
    ensures { IfOk result
        (λ text. string_bytes text ≡ codes "lt=" ++ decimal (generator.lifetime i)) }
{
    let seconds = lifetime(i);
    Ok(format!(in alloc; "lt={seconds}")?)
}

/// Returns the kind of its second link, as a query option (RFC 9176 section 6.2).
fn kind_query(alloc: Global, i: u16) -> Result<String, Starved>
    ensures { IfOk result (λ text. string_bytes text ≡ codes "rt=" ++ generator.kind_text i) }
{
    let kind = i % 7;
    Ok(format!(in alloc; "rt=kind{kind}")?)
}

/// Starts a confirmable request, without options so far (RFC 7252 section 4.2).
fn begin(code: u8, mid: u16, token: TokenRef<'_>) -> Writer
    requires code { (codes_of.empty < code) × (codes_of.is_reserved code ≡ false) }
    ensures begun { result ≡ bare_message kind.Con code mid token.entry.octets.now }
    ensures size { length (spelling result) ≤ 12 }
{
    Writer::start(Kind4::Con, code, mid, token)
}

/// Adds an option whose value has at most 20 octets.
fn put(writer: &mut Writer, number: u32, value: &[u8])
    requires filled { codes_of.empty < writer.old.code }
    requires open { writer.old.payload ≡ [] }
    requires ascends { end_number 0 writer.old.options ≤ number }
    requires number { number ≤ table.uri_query }
    requires value { length value.now ≤ 20 }
    requires room { length (spelling writer.old) ≤ 200 }
    ensures put { writer.new ≡ with_last_option writer.old (number, value.now) }
    ensures size { length (spelling writer.new) ≤ length (spelling writer.old) + 25 }
{
    let Ok(()) = writer.option(number, value) else {
        unreachable!()
    };
}

/// Starts the registration of a device with its query options, without its links (RFC 9176 section
/// 5).
fn begin_registration(i: u16, name: &[u8], lifetime: &[u8]) -> Writer
    requires name { name.now ≡ codes "ep=dev" ++ decimal i }
    requires lifetime { lifetime.now ≡ codes "lt=" ++ decimal (generator.lifetime i) }
    ensures begun { result ≡ with_payload (generator.device_registration i) [] }
    ensures size { length (spelling result) ≤ 200 }
{
    let token = TokenRef {
        octets: &[(i % 256) as u8],
    };
    let mut writer = begin(POST, i, token);
    put(&mut writer, URI_PATH, b"rd");
    put(&mut writer, URI_QUERY, name);
    put(&mut writer, URI_QUERY, lifetime);
    writer
}

/// Starts the lookup that observes the links of a device's kind (RFC 9176 section 6, RFC 7641
/// section 2).
fn begin_observation(i: u16, kind: &[u8]) -> Writer
    requires number { i ≤ 4_000 }
    requires kind { kind.now ≡ codes "rt=" ++ generator.kind_text i }
    ensures begun { result ≡ generator.observation i }
    ensures size { length (spelling result) ≤ 200 }
{
    let token = TokenRef {
        octets: &i.to_be_bytes(),
    };
    let mut writer = begin(GET, 20000 + i, token);
    put(&mut writer, OBSERVE, b"");
    put(&mut writer, URI_PATH, b"rd-lookup");
    put(&mut writer, URI_PATH, b"res");
    put(&mut writer, URI_QUERY, kind);
    writer
}

/// Returns the worker that serves a device.
fn turn(i: u16, workers: u8) -> u8
    requires { 1 ≤ workers }
    ensures { result ≡ i % workers }
{
    (i % u16::from(workers)) as u8
}

/// Returns the line of a message that arrives with this payload, of at most 100 octets.
#[tactic(auto, unfolding(line_model::specs::Lines::line_text))]
fn come_line(
    alloc: Global,
    worker: u8,
    at: u64,
    peer: &Peer,
    writer: &mut Writer,
    payload: &[u8],
) -> Result<String, Starved>
    requires filled { codes_of.empty < writer.old.code }
    requires open { writer.old.payload ≡ [] }
    requires room { length (spelling writer.old) ≤ 200 }
    requires payload { length payload.now ≤ 100 }
    ensures { IfOk result (λ text.
        string_bytes text
        ≡ line_text (line_kind.Come worker (record { 0 = at }) peer.now
        (spelling (with_payload writer.old payload.now)) 0)) }
{
    let Ok(datagram) = writer.finish(payload) else {
        unreachable!()
    };
    come_print(alloc, worker, Moment(at), peer, datagram, 0)
}

/// Returns the line of a device's registration.
fn registration_line(alloc: Global, i: u16, worker: u8) -> Result<String, Starved>
    ensures { IfOk result (λ text.
        string_bytes text
        ≡ line_text (line_kind.Come worker (record { 0 = generator.pace * i })
        (generator.device i) (spelling (generator.device_registration i)) 0)) }
{
    let name = name_query(alloc, i)?;
    let lifetime = lifetime_query(alloc, i)?;
    let links = device_links(alloc, i)?;
    let mut writer = begin_registration(i, name.as_bytes(), lifetime.as_bytes());
    let at = PACE * u64::from(i);
    come_line(alloc, worker, at, &device(i), &mut writer, links.as_bytes())
}

/// Returns the line of the observer that follows a device.
fn observation_line(alloc: Global, i: u16, worker: u8) -> Result<String, Starved>
    requires { i ≤ 4_000 }
    ensures { IfOk result (λ text.
        string_bytes text
        ≡ line_text (line_kind.Come worker (record { 0 = generator.pace * i + 2 })
        generator.onlooker (spelling (generator.observation i)) 0)) }
{
    let kind = kind_query(alloc, i)?;
    let mut writer = begin_observation(i, kind.as_bytes());
    let at = PACE * u64::from(i) + 2;
    come_line(alloc, worker, at, &onlooker(), &mut writer, b"")
}

/// Returns the line that serves a device, a millisecond after its registration.
#[tactic(auto, unfolding(line_model::specs::Lines::line_text))]
fn service_line(alloc: Global, i: u16, worker: u8) -> Result<String, Starved>
    ensures { IfOk result (λ text.
        string_bytes text
        ≡ line_text (line_kind.Go worker (record { 0 = generator.pace * i + 1 }))) }
{
    go_print(alloc, worker, Moment(PACE * u64::from(i) + 1))
}

/// Returns the line of time that passes at a worker, with a word.
#[tactic(auto, unfolding(line_model::specs::Lines::line_text))]
fn tick_line(alloc: Global, worker: u8, at: u64, word: u32) -> Result<String, Starved>
    ensures { IfOk result
        (λ text. string_bytes text ≡ line_text (line_kind.Tick worker (record { 0 = at }) word)) }
{
    tick_print(alloc, worker, Moment(at), word)
}

/// Appends a line, with its line feed.
fn put_line(text: &mut Bytes, line: &str) -> Result<(), Starved>
    ensures { OnOk result (text.new ≡ text.old ++ (line.now ++ line_feed ∷ [])) }
{
    text.append(line.as_bytes())?;
    text.push(b'\n')
}

/// Appends the line of an observer after each tenth device.
fn put_observer(text: &mut Bytes, alloc: Global, i: u16, workers: u8) -> Result<(), Starved>
    requires number { i ≤ 4_000 }
    requires workers { 1 ≤ workers }
    ensures { OnOk result
        (text.new ≡ text.old ++ generator.text_of (generator.observer_lines workers i)) }
{
    if i % 10 != 0 {
        return Ok(());
    }
    let line = observation_line(alloc, i, turn(i, workers))?;
    put_line(text, line.as_str())
}

/// Appends the line of a tick after each hundredth device, with its number as the word.
fn put_tick(text: &mut Bytes, alloc: Global, i: u16, workers: u8) -> Result<(), Starved>
    requires { 1 ≤ workers }
    ensures { OnOk result
        (text.new ≡ text.old ++ generator.text_of (generator.tick_lines workers i)) }
{
    if i % 100 != 0 {
        return Ok(());
    }
    let at = PACE * u64::from(i) + 3;
    let line = tick_line(alloc, turn(i, workers), at, u32::from(i))?;
    put_line(text, line.as_str())
}

/// Appends the lines of a device.
fn put_device(text: &mut Bytes, alloc: Global, i: u16, workers: u8) -> Result<(), Starved>
    requires number { i ≤ 4_000 }
    requires workers { 1 ≤ workers }
    ensures { OnOk result
        (text.new ≡ text.old ++ generator.text_of (generator.device_lines workers i)) }
{
    let worker = turn(i, workers);
    let registration = registration_line(alloc, i, worker)?;
    put_line(text, registration.as_str())?;
    let service = service_line(alloc, i, worker)?;
    put_line(text, service.as_str())?;
    put_observer(text, alloc, i, workers)?;
    put_tick(text, alloc, i, workers)
}

/// Returns the text of the trace that is generated for a number of devices and of workers.
///
/// Devices are numbered from 1 and 200 milliseconds apart, and the workers step one after another.
/// Each device registers (RFC 9176 section 5) and is served a millisecond later. After each tenth
/// device, an observer looks up the links of its kind (RFC 9176 section 6, RFC 7641 section 2).
/// After each hundredth device, time passes. A last tick ends the trace.
///
/// # Requires
///
/// There are 1 to 4,000 devices and 1 to 16 workers.
///
/// # Errors
///
/// `Starved` if memory runs out.
pub fn make(alloc: Global, devices: u32, workers: u8) -> Result<Bytes, Starved>
    requires devices { (1 ≤ devices) × (devices ≤ 4_000) }
    requires workers { (1 ≤ workers) × (workers ≤ 16) }
    ensures { IfOk result (λ bytes. bytes ≡ generator.generated devices workers) }
{
    let mut text = Bytes::new(alloc);
    'devices: for i in 0..devices {
        put_device(&mut text, alloc, i as u16 + 1, workers)?;
    }
    let last = tick_line(alloc, 0, PACE * u64::from(devices) + 10, 0)?;
    put_line(&mut text, last.as_str())?;
    Ok(text)
}
