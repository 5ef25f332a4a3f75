//! The lines of a configuration, read one after another.

ghost use Rattle.std.specs.Prelude.{◌≡◌, ◌≤◌, ◌<◌, ◌∷◌, [], map, length, Option, None, Ok, Err, IfOk, IfErr, ◌==◌, ◌+◌, nat_lt, if◌then◌else◌};
ghost use Rattle.std.specs.List.{slice_split};
ghost use Rattle.jp_types.specs.declared.cause.Cause.{Cause};
ghost use Rattle.configuration.specs.declared.address.Address.{Address};
ghost use Rattle.configuration.specs.Configuration.{Place, words, line_by, lone, operand, four, or_bytes, host, address_of, replica_line, next_replica, replicas, all_replicas, id_of, mode_of, window_of, store_of, cluster_of, yes_or_no, old_of, one_of_them, node_lines, client_of, first_of, client_lines};
ghost use Rattle.jp_types.specs.Reading.{Reads};
ghost use Rattle.jp_types.specs.Words.{is_empty, number};
ghost use Rattle.configuration.specs.Telling.{Tells, spelt, fault_at};
ghost use Rattle.text_lines.specs.Lines.{text_words, first_raw};

use crate::address::Address;
use crate::client::ClientConfig;
use crate::fault::ConfigFault;
use crate::node::NodeConfig;
use jp_types::cause::Cause;
use jp_types::listed::Listed;
use jp_types::memory::NoMemory;
use jp_types::mode::Mode;
use jp_types::octets::Octets;
use jp_types::read_command::LineFault;
use jp_types::words::number;
use std::alloc::Global;
use std::marker::Model;
use text_lines::lines::{behind_first, first_len, mode, text_words};

/// The greatest number of a request, and of a cluster.
const NUMBER_LIMIT: u64 = 1 << 48;

/// How many replicas there are at least.
const LEAST_REPLICAS: u8 = 3;

/// How many replicas there are at most.
const MOST_REPLICAS: u8 = 9;

/// How far a text was read.
#[derive(Drop)]
pub struct Lines<'a> {
    line: u64,
    rest: &'a [u8],
}

impl<'a> Model for Lines<'a> {
    ghost use Rattle.std.specs.Prelude.{ℕ, ◌+◌, ◌<◌, ◌^◌, List, length, refl};
    ghost use Rattle.std.specs.Coded.{code_by, coded×, coded_ℕ, coded_list};
    ghost use Rattle.configuration.specs.Configuration.{Place};

    ghost Value = { Place };

    ghost coded = { code_by (ℕ × List ℕ) (coded× coded_ℕ (coded_list coded_ℕ)) (λ p. (p.line, p.rest)) (λ p. record { line = p.0; rest = p.1 }) (λ _. refl) };

    ghost view = { λ l. record { line = l.line; rest = l.rest.now } };

    // Each line takes at least one byte.
    ghost invariant = { λ l. l.line + length l.rest.now < 2 ^ 64 };
}

// What is told of a fault at a line.
fn fault_at(line: u64, fault: LineFault) -> ConfigFault
    ensures { result ≡ fault_at line fault }
{
    match fault {
        LineFault::Cause(cause) => ConfigFault::Bad { line, cause },
        LineFault::NoMemory => ConfigFault::NoMemory,
    }
}

// The words of the first line of a text that is not empty.
fn first_words(alloc: Global, text: &[u8]) -> Result<Vec<&[u8]>, LineFault>
    ensures ok { IfOk result (λ words. text_words (first_raw text.now) ≡ Ok (spelt words.items)) }
    ensures err { IfErr result (λ fault. Reads (Err fault) (text_words (first_raw text.now))) }
{
    let front = first_len(text);
    text_words(alloc, &text[..front], front < text.len())
}

// ---- Words of a line

fn lone<'a>(operands: &[&'a [u8]]) -> Result<&'a [u8], Cause>
    ensures ok { IfOk result (λ operand. lone (spelt operands.now) ≡ Ok operand.now) }
    ensures err { IfErr result (λ cause. lone (spelt operands.now) ≡ Err cause) }
{
    match operands {
        [operand] => Ok(*operand),
        _ => Err(Cause::Operands),
    }
}

// The one operand of a line that begins with this word.
fn operand<'a>(words: &[&'a [u8]], word: &[u8]) -> Result<&'a [u8], Cause>
    ensures ok { IfOk result (λ found. operand word.now (spelt words.now) ≡ Ok found.now) }
    ensures err { IfErr result (λ cause. operand word.now (spelt words.now) ≡ Err cause) }
{
    match words {
        [first, operands @ ..] if *first == word => lone(operands),
        _ => Err(Cause::Unknown),
    }
}

fn id_of(words: &[&[u8]]) -> Result<u64, Cause>
    ensures value { result ≡ id_of (spelt words.now) }
    ensures within { IfOk result (λ id. id ≤ 8) }
{
    number(operand(words, b"id")?, 0, 8)
}

fn mode_of(words: &[&[u8]]) -> Result<Mode, Cause>
    ensures { result ≡ mode_of (spelt words.now) }
{
    mode(operand(words, b"mode")?)
}

fn window_of(words: &[&[u8]]) -> Result<u64, Cause>
    ensures value { result ≡ window_of (spelt words.now) }
    ensures within { IfOk result (λ window. window ≤ 64) }
{
    number(operand(words, b"window")?, 1, 64)
}

fn cluster_of(words: &[&[u8]]) -> Result<u64, Cause>
    ensures { result ≡ cluster_of (spelt words.now) }
{
    number(operand(words, b"cluster")?, 1, NUMBER_LIMIT)
}

fn yes_or_no(word: &[u8]) -> Result<bool, Cause>
    ensures { result ≡ yes_or_no word.now }
{
    if word == b"yes".as_slice() {
        Ok(true)
    } else if word == b"no".as_slice() {
        Ok(false)
    } else {
        Err(Cause::BadMode)
    }
}

fn old_of(words: &[&[u8]]) -> Result<bool, Cause>
    ensures { result ≡ old_of (spelt words.now) }
{
    yes_or_no(operand(words, b"old")?)
}

fn client_of(words: &[&[u8]]) -> Result<u64, Cause>
    ensures { result ≡ client_of (spelt words.now) }
{
    number(operand(words, b"client")?, 0, 1023)
}

fn first_of(words: &[&[u8]]) -> Result<u64, Cause>
    ensures { result ≡ first_of (spelt words.now) }
{
    number(operand(words, b"first")?, 1, NUMBER_LIMIT)
}

// ---- Replicas

// A number of one byte.
fn byte(word: &[u8]) -> Result<u8, Cause>
    ensures { result ≡ number 0 255 word.now }
{
    Ok(number(word, 0, 255)? as u8)
}

// Four numbers of a byte each.
fn four(parts: &[&[u8]]) -> Result<[u8; 4], Cause>
    ensures { result ≡ four (spelt parts.now) }
{
    match parts {
        [a, b, c, d] => four_bytes(a, b, c, d),
        _ => Err(Cause::Bytes),
    }
}

fn four_bytes(a: &[u8], b: &[u8], c: &[u8], d: &[u8]) -> Result<[u8; 4], Cause>
    ensures { result ≡ four (a.now ∷ b.now ∷ c.now ∷ d.now ∷ []) }
{
    let a = byte(a)?;
    let b = byte(b)?;
    let c = byte(c)?;
    let d = byte(d)?;
    Ok([a, b, c, d])
}

// What is no host for whatever reason is told by one cause.
fn or_bytes(host: Result<[u8; 4], Cause>) -> Result<[u8; 4], Cause>
    ensures { result ≡ or_bytes host }
{
    match host {
        Ok(host) => Ok(host),
        Err(_) => Err(Cause::Bytes),
    }
}

// The parts of a word between dots.
fn parts_of(alloc: Global, word: &[u8]) -> Result<Vec<&[u8]>, NoMemory>
    ensures { IfOk result (λ parts. spelt parts.items ≡ slice_split (λ c. c == 46) word.now) }
{
    Ok(word.split(|c| *c == b'.').collect(alloc)?)
}

fn host(alloc: Global, word: &[u8]) -> Result<[u8; 4], LineFault>
    ensures { Reads result (host word.now) }
{
    if word == b"localhost".as_slice() {
        return Ok([127, 0, 0, 1]);
    }
    let parts = parts_of(alloc, word)?;
    Ok(or_bytes(four(&parts))?)
}

// The operands of a replica: its number, its host and its first port.
fn address_of(alloc: Global, index: u8, operands: &[&[u8]]) -> Result<Address, LineFault>
    ensures { Reads result (address_of index (spelt operands.now)) }
{
    match operands {
        [replica, place, port] => address(alloc, index, replica, place, port),
        _ => Err(LineFault::Cause(Cause::Operands)),
    }
}

fn address(
    alloc: Global,
    index: u8,
    replica: &[u8],
    place: &[u8],
    port: &[u8],
) -> Result<Address, LineFault>
    ensures { Reads result (address_of index (replica.now ∷ place.now ∷ port.now ∷ [])) }
{
    number(replica, index as u64, index as u64)?;
    let host = host(alloc, place)?;
    let port = number(port, 1, 65000)?;
    Ok(Address {
        host,
        port: port as u16,
    })
}

// The line of replica `index`.
fn replica_line(alloc: Global, index: u8, words: &[&[u8]]) -> Result<Address, LineFault>
    requires { index ≤ 9 }
    ensures { Reads result (replica_line index (spelt words.now)) }
{
    match words {
        [] => Err(LineFault::Cause(Cause::Unknown)),
        [first, operands @ ..] => named_replica(alloc, index, first, operands),
    }
}

fn named_replica(
    alloc: Global,
    index: u8,
    first: &[u8],
    operands: &[&[u8]],
) -> Result<Address, LineFault>
    ensures { Reads result (replica_line index (first.now ∷ spelt operands.now)) }
{
    if first == b"replica".as_slice() {
        if index == MOST_REPLICAS {
            return Err(LineFault::Cause(Cause::AfterEnd));
        }
        return address_of(alloc, index, operands);
    }
    if index < LEAST_REPLICAS {
        Err(LineFault::Cause(Cause::Unknown))
    } else {
        Err(LineFault::Cause(Cause::AfterEnd))
    }
}

// ---- Lines in order

impl<'a> Lines<'a> {
    pub fn new(text: &'a [u8]) -> Lines<'a>
        ensures { result ≡ record { line = 1; rest = text.now } }
    {
        let _length = text.len();
        Lines {
            line: 1,
            rest: text,
        }
    }

    // The words of the next line.
    fn words(&mut self, alloc: Global) -> Result<Vec<&'a [u8]>, ConfigFault>
        ensures { Tells (λ words. (spelt words.items, self.new)) result (words self.old) }
    {
        if self.is_at_end() {
            return Err(ConfigFault::Bad {
                line: self.line,
                cause: Cause::NoEnd,
            });
        }
        match first_words(alloc, self.rest) {
            Ok(words) => {
                self.line += 1;
                self.rest = behind_first(self.rest);
                Ok(words)
            }
            Err(fault) => Err(fault_at(self.line, fault)),
        }
    }

    fn id(&mut self, alloc: Global) -> Result<u8, ConfigFault>
        ensures { Tells (λ id. (id, self.new)) result (line_by id_of self.old) }
    {
        let line = self.line;
        let words = self.words(alloc)?;
        match id_of(&words) {
            Ok(id) => Ok(id as u8),
            Err(cause) => Err(ConfigFault::Bad { line, cause }),
        }
    }

    fn mode(&mut self, alloc: Global) -> Result<Mode, ConfigFault>
        ensures { Tells (λ mode. (mode, self.new)) result (line_by mode_of self.old) }
    {
        let line = self.line;
        let words = self.words(alloc)?;
        match mode_of(&words) {
            Ok(mode) => Ok(mode),
            Err(cause) => Err(ConfigFault::Bad { line, cause }),
        }
    }

    fn window(&mut self, alloc: Global) -> Result<u8, ConfigFault>
        ensures { Tells (λ window. (window, self.new)) result (line_by window_of self.old) }
    {
        let line = self.line;
        let words = self.words(alloc)?;
        match window_of(&words) {
            Ok(window) => Ok(window as u8),
            Err(cause) => Err(ConfigFault::Bad { line, cause }),
        }
    }

    fn store(&mut self, alloc: Global) -> Result<Octets, ConfigFault>
        ensures { Tells (λ store. (store, self.new)) result (line_by store_of self.old) }
    {
        let line = self.line;
        let words = self.words(alloc)?;
        match operand(&words, b"store") {
            Ok(path) => Ok(Octets::from_slice(alloc, path)?),
            Err(cause) => Err(ConfigFault::Bad { line, cause }),
        }
    }

    fn cluster(&mut self, alloc: Global) -> Result<u64, ConfigFault>
        ensures { Tells (λ cluster. (cluster, self.new)) result (line_by cluster_of self.old) }
    {
        let line = self.line;
        let words = self.words(alloc)?;
        match cluster_of(&words) {
            Ok(cluster) => Ok(cluster),
            Err(cause) => Err(ConfigFault::Bad { line, cause }),
        }
    }

    fn old(&mut self, alloc: Global) -> Result<bool, ConfigFault>
        ensures { Tells (λ old. (old, self.new)) result (line_by old_of self.old) }
    {
        let line = self.line;
        let words = self.words(alloc)?;
        match old_of(&words) {
            Ok(old) => Ok(old),
            Err(cause) => Err(ConfigFault::Bad { line, cause }),
        }
    }

    fn replica(&mut self, alloc: Global, index: u8) -> Result<Address, ConfigFault>
        requires { index ≤ 9 }
        ensures { Tells (λ address. (address, self.new)) result (line_by (replica_line index) self.old) }
    {
        let line = self.line;
        let words = self.words(alloc)?;
        match replica_line(alloc, index, &words) {
            Ok(address) => Ok(address),
            Err(fault) => Err(fault_at(line, fault)),
        }
    }

    // The end of the text, where there are enough replicas.
    fn end(&self, index: u8) -> Result<Option<Address>, ConfigFault>
        ensures { Tells {Y = Option Address × Place} (λ found. (found, self.now)) result (if nat_lt index 3 then Err (record { line = self.now.line; cause = Cause.NoEnd }) else Ok (None, self.now)) }
    {
        if index < LEAST_REPLICAS {
            return Err(ConfigFault::Bad {
                line: self.line,
                cause: Cause::NoEnd,
            });
        }
        Ok(None)
    }

    fn is_at_end(&self) -> bool
        ensures { result ≡ is_empty self.now.rest }
    {
        match self.rest {
            [] => true,
            [_, ..] => false,
        }
    }

    // The next replica; `None` at the end of the text.
    fn next_replica(&mut self, alloc: Global, index: u8) -> Result<Option<Address>, ConfigFault>
        requires { index ≤ 9 }
        ensures { Tells (λ found. (found, self.new)) result (next_replica index self.old) }
    {
        if self.is_at_end() {
            return self.end(index);
        }
        Ok(Some(self.replica(alloc, index)?))
    }

    // The replicas from this one on, of which at most so many more lines are read.
    fn replicas(
        &mut self,
        alloc: Global,
        more: u8,
        index: u8,
        out: &mut Listed<Address>,
    ) -> Result<(), ConfigFault>
        requires { more + index ≡ 10 }
        ensures { Tells (λ _. (out.new, self.new)) result (replicas more out.old index self.old) }
    {
        if more == 0 {
            return Ok(());
        }
        match self.next_replica(alloc, index)? {
            Some(address) => {
                out.push(address)?;
                self.replicas(alloc, more - 1, index + 1, out)
            }
            None => Ok(()),
        }
    }

    fn all_replicas(&mut self, alloc: Global) -> Result<Listed<Address>, ConfigFault>
        ensures { Tells (λ replicas. (replicas, self.new)) result (all_replicas self.old) }
    {
        let mut found = Listed::empty(alloc);
        self.replicas(alloc, 10, 0, &mut found)?;
        Ok(found)
    }

    /// The configuration of a node.
    pub fn node(&mut self, alloc: Global) -> Result<NodeConfig, ConfigFault>
        ensures { Tells (λ config. (config, self.new)) result (node_lines self.old) }
    {
        let id = self.id(alloc)?;
        let mode = self.mode(alloc)?;
        let window = self.window(alloc)?;
        let store = self.store(alloc)?;
        let cluster = self.cluster(alloc)?;
        let old = self.old(alloc)?;
        let replicas = self.all_replicas(alloc)?;
        let config = NodeConfig {
            id,
            mode,
            window,
            store,
            cluster,
            old,
            replicas,
        };
        one_of_them(config)
    }

    /// The configuration of a client.
    pub fn client(&mut self, alloc: Global) -> Result<ClientConfig, ConfigFault>
        ensures { Tells (λ config. (config, self.new)) result (client_lines self.old) }
    {
        let client = self.client_number(alloc)?;
        let first = self.first(alloc)?;
        let replicas = self.all_replicas(alloc)?;
        Ok(ClientConfig {
            client,
            first,
            replicas,
        })
    }

    fn client_number(&mut self, alloc: Global) -> Result<u64, ConfigFault>
        ensures { Tells (λ client. (client, self.new)) result (line_by client_of self.old) }
    {
        let line = self.line;
        let words = self.words(alloc)?;
        match client_of(&words) {
            Ok(client) => Ok(client),
            Err(cause) => Err(ConfigFault::Bad { line, cause }),
        }
    }

    fn first(&mut self, alloc: Global) -> Result<u64, ConfigFault>
        ensures { Tells (λ first. (first, self.new)) result (line_by first_of self.old) }
    {
        let line = self.line;
        let words = self.words(alloc)?;
        match first_of(&words) {
            Ok(first) => Ok(first),
            Err(cause) => Err(ConfigFault::Bad { line, cause }),
        }
    }
}

// The node is one of the replicas. This is asked last of all.
fn one_of_them(config: NodeConfig) -> Result<NodeConfig, ConfigFault>
    ensures { (place : Place) → Tells (λ config. (config, place)) result (one_of_them config place) }
{
    if (config.id as usize) < config.replicas.as_slice().len() {
        Ok(config)
    } else {
        Err(ConfigFault::Bad {
            line: 1,
            cause: Cause::Number,
        })
    }
}

#[cfg(test)]
mod tests {
    use crate::client::read_client;
    use crate::fault::ConfigFault;
    use crate::node::read_node;
    use jp_types::cause::Cause;
    use jp_types::mode::Mode;
    use std::test::Fail;

    const REPLICAS: &str =
        "replica 0 localhost 7000\nreplica 1 10.0.0.255 7100\nreplica 2 localhost 65000\n";

    #[test]
    fn a_node_is_read(rt: HostRuntime) -> Result<(), Fail> {
        let text = format!(in rt.alloc();
            "id 2\nmode epochss\nwindow 64\nstore data/two\ncluster 7\nold yes\n{REPLICAS}"
        )?;
        let node = read_node(rt.alloc(), text.as_bytes())?;
        assert_eq!(rt; (node.id, node.mode, node.window), (2, Mode::EpochSs, 64));
        assert_eq!(rt; node.store.bytes(), b"data/two".as_slice());
        assert_eq!(rt; (node.cluster, node.old), (7, true));
        let hosts = node.replicas.as_slice();
        assert_eq!(rt; hosts.len(), 3);
        assert_eq!(rt; (hosts[1].host, hosts[1].port), ([10, 0, 0, 255], 7100));
        let text = format!(in rt.alloc(); "client 5\nfirst 9\n{REPLICAS}")?;
        let client = read_client(rt.alloc(), text.as_bytes())?;
        assert_eq!(rt; (client.client, client.first), (5, 9));
        let hosts = client.replicas.as_slice();
        assert_eq!(rt; hosts.len(), 3);
        assert_eq!(rt; hosts[0].host, [127, 0, 0, 1]);
        Ok(())
    }

    #[test]
    fn the_first_bad_line_is_told(rt: HostRuntime) -> Result<(), Fail> {
        let head = "id 0\nmode viewss\nwindow 4\nstore s\ncluster 1\nold no\n";
        let more =
            "replica 3 localhost 1\nreplica 4 localhost 1\nreplica 5 localhost 1\nreplica 6 localhost 1\nreplica 7 localhost 1\nreplica 8 localhost 1\n";
        for (front, behind, line, cause) in [
            ("", "", 1, Cause::NoEnd),
            ("mode viewss\n", REPLICAS, 1, Cause::Unknown),
            ("id 0\nmode viewss\nwindow 65\n", "", 3, Cause::Number),
            ("id 0\nmode both\n", "", 2, Cause::BadMode),
            ("id 0 0\n", "", 1, Cause::Operands),
            ("id 9\n", "", 1, Cause::Number),
            ("id 0", "", 1, Cause::Text),
            (
                "id 5\nmode viewss\nwindow 4\nstore s\ncluster 1\nold no\n",
                REPLICAS,
                1,
                Cause::Number,
            ),
            (
                "id 0\nmode viewss\nwindow 4\nstore s\ncluster 0\n",
                "",
                5,
                Cause::Number,
            ),
            (
                "id 0\nmode viewss\nwindow 4\nstore s\ncluster 1\nold maybe\n",
                "",
                6,
                Cause::BadMode,
            ),
            (head, "replica 1 localhost 7000\n", 7, Cause::Number),
            (head, "replica 0 localhost 65001\n", 7, Cause::Number),
            (head, "replica 0 10.0.0 7000\n", 7, Cause::Bytes),
            (head, "replica 0 10.0.0.256 7000\n", 7, Cause::Bytes),
            (
                head,
                "replica 0 localhost 1\nreplica 1 localhost 1\n",
                9,
                Cause::NoEnd,
            ),
            (head, "replica 0 localhost 1\nstore s\n", 8, Cause::Unknown),
        ] {
            let text = format!(in rt.alloc(); "{front}{behind}")?;
            let told = read_node(rt.alloc(), text.as_bytes()).err();
            assert_eq!(rt; told, Some(ConfigFault::Bad { line, cause }), "{text}");
        }
        for (behind, line, cause) in [("end\n", 10, Cause::AfterEnd), ("end", 10, Cause::Text)] {
            let text = format!(in rt.alloc(); "{head}{REPLICAS}{behind}")?;
            let told = read_node(rt.alloc(), text.as_bytes()).err();
            assert_eq!(rt; told, Some(ConfigFault::Bad { line, cause }));
        }
        let text = format!(in rt.alloc(); "{head}{REPLICAS}{more}replica 9 localhost 1\n")?;
        let told = read_node(rt.alloc(), text.as_bytes()).err();
        assert_eq!(rt;
            told,
            Some(ConfigFault::Bad {
                line: 16,
                cause: Cause::AfterEnd
            })
        );
        Ok(())
    }
}
