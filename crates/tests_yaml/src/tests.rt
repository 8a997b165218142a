//! Texts of the profile, and the trees or the lines that they answer, and TOML texts with their trees. All were worked out
//! by hand.

use std::alloc::Global;
use std::test::Fail;
use tests_lines::{Unread, ask_of, bytes_of, escaped, is_wanted, told};
use toml::table_from_slice;
use zr_jobfile::node_of;
use zr_names::node::{Node, NodePair};
use zr_yaml::{YamlFault, read_yaml};

/// A text with `\n` for a newline and `\s` for a blank, and its tree as JSON or the line of its fault.
const CASES: &str = r#"
# nothing is Null
\e => null
\n => null
\n\n\n => null
\s\s\n => null
--- => null
---\n => null
---\r\n => null
\x23 only a comment => null
# scalars
true => true
false => false
null => null
~ => null
True => "True"
yes => "yes"
0 => 0
7 => 7
007 => 7
123456789012345678 => 123456789012345678
999999999999999999 => 999999999999999999
1234567890123456789 => "1234567890123456789"
1.5 => "1.5"
1e3 => "1e3"
0x10 => "0x10"
a b  c => "a b  c"
tank/a => "tank/a"
tank/a< => "tank/a<"
a\s\s => "a"
\xc3\xa4 => "ä"
it's => "it's"
a{b => "a{b"
a[b], c => "a[b], c"
a"b => "a"b"
a:b => "a:b"
http://x => "http://x"
# quotes
"true" => "true"
'7' => "7"
"" => ""
'' => ""
"a\x5c\x5cb" => "a\b"
"\x5c"" => """
"a\x5cnb" => "a\nb"
"a\x5ctb" => "a\tb"
"a\tb" => "a\tb"
'a\tb' => "a\tb"
'it''s' => "it's"
'''' => "'"
'a\x5cnb' => "a\nb"
"a # b" => "a # b"
'a: b' => "a: b"
"[a, b]" => "[a, b]"
"a"\s\s\x23 c => "a"
"a\x5cx" => line 1
"a\x5cr" => line 1
"a => line 1
'a => line 1
'a'' => line 1
"a\x5c" => line 1
"a"b => line 1
"a" b => line 1
"a"\x23 b => line 1
'a'b => line 1
"a\nb" => line 1
# what no plain scalar is
-a => line 1
-5 => line 1
?a => line 1
:a => line 1
,a => line 1
]a => line 1
}a => line 1
&a => line 1
*a => line 1
!a => line 1
|a => line 1
| => line 1
> => line 1
%a => line 1
@a => line 1
`a => line 1
: => line 1
a: b: c => line 1
a:: => line 1
a\tb => line 1
\ta => line 1
a\t => line 1
a\t\x23 b => line 1
\xff => line 1
a\n\xc3 => line 2
# comments
\x23x => null
\s\s\x23x\n\x23y => null
a \x23 b => "a"
a\x23b => "a#b"
a\x23 b => "a# b"
a: b \x23 c => {"a": "b"}
a: \x23 c => {"a": null}
a:\x23c => "a:#c"
a: it's \x23 c => {"a": "it's"}
- \x23 c\n-\s\s\x23 d => [null, null]
\x23 a\tb => null
a: b \x23 a\tb => {"a": "b"}
a: [b, \x23 c\n c] => {"a": ["b", "c"]}
a: [b\x23c] => {"a": ["b#c"]}
a: [b,\x23c] => line 1
# lines
a\r\n => "a"
a\r => "a"
a: b\r\nc: d\r\n => {"a": "b", "c": "d"}
---\na => "a"
---\n---\n => line 2
a\n--- => line 2
--- a => line 1
---\x23 => line 1
\n---\n => line 2
a\n\n\x23 b\n\n => "a"
a\nb => line 2
\sa => line 1
\n\s\sa => line 2
# maps
a: => {"a": null}
a: b => {"a": "b"}
a:\s\s\sb => {"a": "b"}
a: 1\nb: true\nc: ~\nd: '1' => {"a": 1, "b": true, "c": null, "d": "1"}
a:\n\s\sb => {"a": "b"}
a:\n\sb: c => {"a": {"b": "c"}}
a:\n\sb:\n\s\sc: d\ne: f => {"a": {"b": {"c": "d"}}, "e": "f"}
a:\n\s\s\sb: 1\n\s\s\sc: 2\nd: 3 => {"a": {"b": 1, "c": 2}, "d": 3}
"a b": c => {"a b": "c"}
'a': b => {"a": "b"}
true: 1 => {"true": 1}
1: 2 => {"1": 2}
a b: c => {"a b": "c"}
it's: a => {"it's": "a"}
"a":b => line 1
"a" : b => line 1
a : b => line 1
{a: b}: c => line 1
a: 1\na: 2 => line 2
a: 1\n"a": 2 => line 2
a: 1\nb: 2\na: 3 => line 3
a:\n\sb: 1\n\sb: 2 => line 3
a:\n\sb: 1\nb: 2 => {"a": {"b": 1}, "b": 2}
a: 1\n\sb: 2 => line 2
a:\n\s\sb: 1\n\sc: 2 => line 3
a: 1\nb => line 2
a\nb: 1 => line 2
a: &x b => line 1
a: |\n\sb => line 1
a: - b => line 1
# sequences
- a => ["a"]
- => [null]
-\n- => [null, null]
- a\n- b => ["a", "b"]
-\s\s\sa => ["a"]
-\n\s\sa => ["a"]
-\n\s\sa: b => [{"a": "b"}]
- a: b\n\s\sc: d => [{"a": "b", "c": "d"}]
-\s\s\sa: b\n\s\s\s\sc: d => [{"a": "b", "c": "d"}]
- a: b\n\s\s\sc: d => line 2
- a: b\n\sc: d => line 2
- - a\n\s\s- b\n- c => [["a", "b"], "c"]
- - - a => [[["a"]]]
- a:\n\s\s\s\sb: c\n- d => [{"a": {"b": "c"}}, "d"]
- a:\n\s\s- b\n\s\s- c\n\s\sd: e => [{"a": ["b", "c"], "d": "e"}]
a:\n- b\n- c\nd: e => {"a": ["b", "c"], "d": "e"}
a:\n\s- b\n\s- c => {"a": ["b", "c"]}
a:\n- b\n\s- c => line 3
a:\n\s- b\n- c => line 3
a: b\n- c => line 2
- a\nb: c => line 2
- a\nb => line 2
- a\n\sb => line 2
\s- a => line 1
-\ta => line 1
- -1 => line 1
# in brackets
[] => []
{} => {}
[a] => ["a"]
[ a , b ] => ["a", "b"]
[a, b,] => ["a", "b"]
[a,,b] => line 1
[,] => line 1
[a b, c] => ["a b", "c"]
[[], {}, [[]]] => [[], {}, [[]]]
{a: b} => {"a": "b"}
{a: b, c: d,} => {"a": "b", "c": "d"}
{a : 1} => {"a": 1}
{"a": [1, 2], 'b': {c: ~}} => {"a": [1, 2], "b": {"c": null}}
{a: [], b: {}} => {"a": [], "b": {}}
{a:1} => line 1
{a} => line 1
{a: } => line 1
{a:} => line 1
{a: b: c} => line 1
{a: 1, a: 2} => line 1
{a: {b: 1}, b: 2} => {"a": {"b": 1}, "b": 2}
{: a} => line 1
[a: b] => line 1
[a:] => line 1
[a:b] => ["a:b"]
[it's] => ["it's"]
["a"b] => line 1
["a" "b"] => line 1
[- a] => line 1
[a}] => line 1
[a} => line 1
{a: b] => line 1
[a]] => line 1
[a] b => line 1
[a] \x23 b => ["a"]
[a]\x23 b => line 1
# brackets over several lines
[\na,\nb\n] => ["a", "b"]
a: {\n\s\s"b": 1,\s\s\s\x23 one\n\n\s\s\x23 two\nc: 2 }\nd: 3 => {"a": {"b": 1, "c": 2}, "d": 3}
{a\n: 1} => {"a": 1}
{a:\n1} => {"a": 1}
[a\nb] => line 2
[a:\nb] => line 1
["a\nb"] => line 1
[\n\n}\n] => line 3
{a: 1,\na\n: 2} => line 2
[ => line 2
[\n => line 2
[a,\n\x23 b\n => line 3
a: 1\nb: [\n- c => line 3
[a,\n\tb] => line 2
[a] \n[b] => line 2
- [a,\nb]\n- c => [["a", "b"], "c"]
a: [b,\nc: d] => line 2
# 32 levels and 33
\*[32;\*]32; => [[[[[[[[[[[[[[[[[[[[[[[[[[[[[[[[]]]]]]]]]]]]]]]]]]]]]]]]]]]]]]]]
\*[33;\*]33; => line 1
\*[32;\n[ => line 2
- - - - - - - - - - - - - - - - - - - - - - - - - - - - - - - - a => [[[[[[[[[[[[[[[[[[[[[[[[[[[[[[[["a"]]]]]]]]]]]]]]]]]]]]]]]]]]]]]]]]
- - - - - - - - - - - - - - - - - - - - - - - - - - - - - - - - - a => line 1
- - - - - - - - - - - - - - - - - - - - - - - - - - - - - - - - a: b => line 1
- - - - - - - - - - - - - - - - - - - - - - - - - - - - - - - [] => [[[[[[[[[[[[[[[[[[[[[[[[[[[[[[[[]]]]]]]]]]]]]]]]]]]]]]]]]]]]]]]]
- - - - - - - - - - - - - - - - - - - - - - - - - - - - - - - - [] => line 1
# a line is counted from 1, and the first bad one is told
jobs:\n- name: p\n\s\sname: q => line 3
a: 1\nb: {\nc: 2,\nd: 3\ne: 4} => line 5
a: 1\n\n\x23 x\nb: : => line 4
---\na: 1\na: 2 => line 3
# a job file of two jobs
jobs:\n- name: p\n\s\stype: push\n\s\sconnect: {type: local, listener_name: l, client_identity: c}\n\s\sfilesystems: {\n\s\s\s\s"tank/a": true,\s\s\s\x23 one\n\s\s}\n\s\ssnapshotting:\n\s\s\s\stype: manual\n\s\spruning: {keep_sender: [], keep_receiver: []}\n- name: k\n\s\stype: sink\n\s\sroot_fs: b\n\s\sserve:\n\s\s\s\stype: local\n\s\s\s\slistener_name: 'l'\n => {"jobs": [{"name": "p", "type": "push", "connect": {"type": "local", "listener_name": "l", "client_identity": "c"}, "filesystems": {"tank/a": true}, "snapshotting": {"type": "manual"}, "pruning": {"keep_sender": [], "keep_receiver": []}}, {"name": "k", "type": "sink", "root_fs": "b", "serve": {"type": "local", "listener_name": "l"}}]}
"#;

/// A TOML text, and the tree of its document as JSON.
const DOCUMENTS: &str = r#"
# tables are maps, with their keys in byte order
\e => {}
b = 1\na = 2\n"" = 3 => {"": 3, "a": 2, "b": 1}
[b]\nx = "y"\n[a.c] => {"a": {"c": {}}, "b": {"x": "y"}}
# arrays are sequences
a = [] => {"a": []}
a = [1, ["x"], {b = true}] => {"a": [1, ["x"], {"b": true}]}
[[jobs]]\nname = "p"\n[[jobs]]\nname = "q" => {"jobs": [{"name": "p"}, {"name": "q"}]}
# integers of at least 0 are numbers
a = 0 => {"a": 0}
a = 0x1F => {"a": 31}
a = 9223372036854775807 => {"a": 9223372036854775807}
# no field takes any other value
a = -1 => {"a": other}
a = -9223372036854775808 => {"a": other}
a = 1.5 => {"a": other}
a = 2026-12-01 => {"a": other}
a = [2026-12-01T00:00:00Z, 1] => {"a": [other, 1]}
# booleans are flags
a = true\nb = false => {"a": true, "b": false}
"#;

fn put(out: &mut String, text: &str) -> Result<(), Unread> {
    match out.push_str(text) {
        Ok(()) => Ok(()),
        Err(_) => Err(Unread),
    }
}

fn put_text(alloc: Global, out: &mut String, bytes: &[u8]) -> Result<(), Unread> {
    put(out, "\"")?;
    put(out, escaped(alloc, bytes)?.as_str())?;
    put(out, "\"")
}

fn put_number(alloc: Global, out: &mut String, number: u64) -> Result<(), Unread> {
    put(out, format!(in alloc; "{number}")?.as_str())
}

#[cycle(show)]
fn put_node(alloc: Global, out: &mut String, node: &Node) -> Result<(), Unread> {
    match node {
        Node::Null => put(out, "null"),
        Node::Flag(flag) => put(out, if *flag { "true" } else { "false" }),
        Node::Number(number) => put_number(alloc, out, *number),
        Node::Text(text) => put_text(alloc, out, text.as_bytes()),
        Node::Map(pairs) => put_pairs(alloc, out, pairs),
        Node::Seq(nodes) => put_nodes(alloc, out, nodes),
        Node::Other => put(out, "other"),
    }
}

fn put_comma(out: &mut String, place: usize) -> Result<(), Unread> {
    if place == 0 {
        return Ok(());
    }
    put(out, ", ")
}

#[cycle(show)]
fn put_nodes(alloc: Global, out: &mut String, nodes: &[Node]) -> Result<(), Unread> {
    put(out, "[")?;
    for place in 0..nodes.len() {
        put_comma(out, place)?;
        put_node(alloc, out, &nodes[place])?;
    }
    put(out, "]")
}

#[cycle(show)]
fn put_pairs(alloc: Global, out: &mut String, pairs: &[NodePair]) -> Result<(), Unread> {
    put(out, "{")?;
    for place in 0..pairs.len() {
        put_comma(out, place)?;
        put_text(alloc, out, pairs[place].key.as_bytes())?;
        put(out, ": ")?;
        put_node(alloc, out, &pairs[place].node)?;
    }
    put(out, "}")
}

fn said(alloc: Global, ask: &str) -> Result<String, Unread> {
    let text = bytes_of(alloc, ask)?;
    match read_yaml(alloc, text.as_slice()) {
        Ok(node) => {
            let mut out = String::new(alloc);
            put_node(alloc, &mut out, &node)?;
            Ok(out)
        }
        Err(YamlFault::BadYaml(line)) => Ok(format!(in alloc; "line {line}")?),
        Err(YamlFault::NoMemory) => Err(Unread),
    }
}

/// The tree of a TOML text.
fn document(alloc: Global, ask: &str) -> Result<String, Unread> {
    let text = bytes_of(alloc, ask)?;
    let Ok(table) = table_from_slice(alloc, text.as_slice()) else {
        return Err(Unread);
    };
    let node = node_of(alloc, &table)?;
    let mut out = String::new(alloc);
    put_node(alloc, &mut out, &node)?;
    Ok(out)
}

#[test]
fn documents_are_trees(rt: HostRuntime) -> Result<(), Fail> {
    for line in DOCUMENTS.lines() {
        if let Some(ask) = ask_of(line) {
            let said = document(rt.alloc(), ask);
            assert!(rt; is_wanted(line, &said), "{line}: {}", told(&said));
        }
    }
    Ok(())
}

#[test]
fn texts_stand_for_these_trees(rt: HostRuntime) -> Result<(), Fail> {
    for line in CASES.lines() {
        if let Some(ask) = ask_of(line) {
            let said = said(rt.alloc(), ask);
            assert!(rt; is_wanted(line, &said), "{line}: {}", told(&said));
        }
    }
    Ok(())
}
