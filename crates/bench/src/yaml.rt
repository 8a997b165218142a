//! A text of the YAML profile, as bench/yaml.sh times its reader.

use std::io::{self, Read};
use zr_names::Node;
use zr_yaml::{YamlFault, read_yaml};

/// How many parts the map or the sequence at the root has.
fn parts(node: &Node) -> usize {
    match node {
        Node::Map(pairs) => pairs.len(),
        Node::Seq(nodes) => nodes.len(),
        _ => 0,
    }
}

/// Reads a text from standard input, and prints how many parts its root has.
pub fn read_text(rt: &HostRuntime) -> io::Result<()> {
    let alloc = rt.alloc();
    let mut bytes = Vec::new(alloc);
    rt.stdin().read_to_end(&mut bytes)?;
    match read_yaml(alloc, bytes.as_slice()) {
        Ok(node) => println!(rt; "{} parts", parts(&node)),
        Err(YamlFault::BadYaml(line)) => println!(rt; "bad at line {line}"),
        Err(YamlFault::NoMemory) => println!(rt; "no memory"),
    }
}
