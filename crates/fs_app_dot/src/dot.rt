//! A picture in DOT.

ghost use Rattle.std.specs.Prelude.{◌≡◌, ◌++◌, IfOk, OnOk, string_bytes};
ghost use Rattle.std.specs.List.{flat_map, list_any};
ghost use Rattle.fs_app_dot.specs.Dot.{are_ends, cluster_at, cluster_text, color, dashes, dot_text, edge_text};
ghost use Rattle.fs_app_dot.specs.Dot.{grey, head_text, is_behind, is_near, is_next, joins, label_word, leads, name_in};
ghost use Rattle.fs_app_dot.specs.Dot.{node_of, node_text, order_between, order_from, order_style, order_text};
ghost use Rattle.fs_app_dot.specs.Dot.{pair_text, rank_at, rank_text, reach, same_name, starts_near, style_text};

use crate::graph::{Edge, Ink, Node};
use crate::quoted::quoted;
use fs_kinds::OperationName;
use std::alloc::{AllocError, Global};

// ---- which boxes are joined

fn same_name(a: OperationName, b: OperationName) -> bool
    ensures { result ≡ same_name a b }
{
    a.hart == b.hart && a.at == b.at
}

/// Is the second its hart's next one in the picture?
fn is_next(a: &Node, b: &Node) -> bool
    ensures { result ≡ is_next a.now b.now }
{
    a.name.hart == b.name.hart && u16::from(b.place) == u16::from(a.place) + 1
}

fn leads(edge: &Edge, from: OperationName, to: OperationName) -> bool
    ensures { result ≡ leads from to edge.now }
{
    same_name(edge.from, from) && same_name(edge.to, to)
}

fn joins(edge: &Edge, a: OperationName, b: OperationName) -> bool
    ensures { result ≡ joins a b edge.now }
{
    leads(edge, a, b) || leads(edge, b, a)
}

fn are_joined(edges: &[Edge], a: OperationName, b: OperationName) -> bool
    ensures { result ≡ list_any (joins a b) edges.now }
{
    edges.iter().any(|edge| joins(edge, a, b))
}

// ---- boxes

fn grey(is_grey: bool) -> &'static str
    ensures { result.now ≡ grey is_grey }
{
    if is_grey {
        ", color=\"#b0b0b0\", fontcolor=\"#808080\""
    } else {
        ""
    }
}

fn write_node(alloc: Global, node: &Node, text: &mut String) -> Result<(), AllocError>
    ensures { OnOk result (string_bytes text.new ≡ string_bytes text.old ++ node_text node.now) }
{
    let label = quoted(alloc, node.label.as_str())?;
    write!(
        text,
        "    \"{}\" [label=\"{}\", group=P{}{}];\n",
        node.name,
        label.as_str(),
        node.name.hart,
        grey(node.is_grey)
    )
}

fn write_node_of(alloc: Global, hart: u8, node: &Node, text: &mut String) -> Result<(), AllocError>
    ensures { OnOk result (string_bytes text.new ≡ string_bytes text.old ++ node_of hart node.now) }
{
    if node.name.hart == hart {
        write_node(alloc, node, text)?;
    }
    Ok(())
}

/// The boxes of a hart.
fn boxes(alloc: Global, nodes: &[Node], hart: u8) -> Result<String, AllocError>
    ensures { IfOk result (λ text. string_bytes text ≡ flat_map (node_of hart) nodes.now) }
{
    let mut text = String::new(alloc);
    for node in nodes {
        write_node_of(alloc, hart, node, &mut text)?;
    }
    Ok(text)
}

fn cluster_text(alloc: Global, nodes: &[Node], hart: u8) -> Result<String, AllocError>
    ensures { IfOk result (λ text. string_bytes text ≡ cluster_text nodes.now hart) }
{
    let boxes = boxes(alloc, nodes, hart)?;
    format!(in alloc;
        "  subgraph cluster_P{} {{ label=P{}; color=\"#c0c0c0\"; fontsize=12;\n{}  }}\n",
        hart,
        hart,
        boxes.as_str()
    )
}

fn write_cluster(
    alloc: Global,
    nodes: &[Node],
    node: &Node,
    text: &mut String,
) -> Result<(), AllocError>
    ensures { OnOk result (string_bytes text.new ≡ string_bytes text.old ++ cluster_at nodes.now node.now) }
{
    if node.place == 0 {
        let cluster = cluster_text(alloc, nodes, node.name.hart)?;
        text.push_str(cluster.as_str())?;
    }
    Ok(())
}

fn clusters(alloc: Global, nodes: &[Node]) -> Result<String, AllocError>
    ensures { IfOk result (λ text. string_bytes text ≡ flat_map (cluster_at nodes.now) nodes.now) }
{
    let mut text = String::new(alloc);
    for node in nodes {
        write_cluster(alloc, nodes, node, &mut text)?;
    }
    Ok(text)
}

// ---- those side by side

fn write_name(place: u8, node: &Node, text: &mut String) -> Result<(), AllocError>
    ensures { OnOk result (string_bytes text.new ≡ string_bytes text.old ++ name_in place node.now) }
{
    if node.place == place {
        write!(text, " \"{}\";", node.name)?;
    }
    Ok(())
}

fn names(alloc: Global, nodes: &[Node], place: u8) -> Result<String, AllocError>
    ensures { IfOk result (λ text. string_bytes text ≡ flat_map (name_in place) nodes.now) }
{
    let mut text = String::new(alloc);
    for node in nodes {
        write_name(place, node, &mut text)?;
    }
    Ok(text)
}

/// Has the second the same place in a hart before?
fn is_behind(node: &Node, other: &Node) -> bool
    ensures { result ≡ is_behind node.now other.now }
{
    node.place == other.place && other.name.hart < node.name.hart
}

fn rank_text(alloc: Global, nodes: &[Node], place: u8) -> Result<String, AllocError>
    ensures { IfOk result (λ text. string_bytes text ≡ rank_text nodes.now place) }
{
    let names = names(alloc, nodes, place)?;
    format!(in alloc; "  {{ rank=same;{} }}\n", names.as_str())
}

/// Has another the same place in a hart before?
fn has_before(nodes: &[Node], node: &Node) -> bool
    ensures { result ≡ list_any (is_behind node.now) nodes.now }
{
    nodes.iter().any(|other| is_behind(node, other))
}

fn write_rank(
    alloc: Global,
    nodes: &[Node],
    node: &Node,
    text: &mut String,
) -> Result<(), AllocError>
    ensures { OnOk result (string_bytes text.new ≡ string_bytes text.old ++ rank_at nodes.now node.now) }
{
    if !has_before(nodes, node) {
        let rank = rank_text(alloc, nodes, node.place)?;
        text.push_str(rank.as_str())?;
    }
    Ok(())
}

fn ranks(alloc: Global, nodes: &[Node]) -> Result<String, AllocError>
    ensures { IfOk result (λ text. string_bytes text ≡ flat_map (rank_at nodes.now) nodes.now) }
{
    let mut text = String::new(alloc);
    for node in nodes {
        write_rank(alloc, nodes, node, &mut text)?;
    }
    Ok(text)
}

// ---- program order

fn order_style(is_joined: bool) -> &'static str
    ensures { result.now ≡ order_style is_joined }
{
    if is_joined {
        " [style=invis, weight=50];\n"
    } else {
        " [label=\"po\", color=\"#a0a0a0\", fontcolor=\"#a0a0a0\", arrowsize=0.6, weight=20];\n"
    }
}

fn write_pair(a: OperationName, b: OperationName, text: &mut String) -> Result<(), AllocError>
    ensures { OnOk result (string_bytes text.new ≡ string_bytes text.old ++ pair_text a b) }
{
    write!(text, "  \"{}\" -> \"{}\"", a, b)
}

fn write_order(edges: &[Edge], a: &Node, b: &Node, text: &mut String) -> Result<(), AllocError>
    ensures { OnOk result (string_bytes text.new ≡ string_bytes text.old ++ order_between edges.now a.now b.now) }
{
    if is_next(a, b) {
        write_pair(a.name, b.name, text)?;
        text.push_str(order_style(are_joined(edges, a.name, b.name)))?;
    }
    Ok(())
}

/// From this operation to its hart's next one, if there is one.
fn order_from(alloc: Global, edges: &[Edge], nodes: &[Node], a: &Node) -> Result<String, AllocError>
    ensures { IfOk result (λ text. string_bytes text ≡ order_from edges.now nodes.now a.now) }
{
    let mut text = String::new(alloc);
    for b in nodes {
        write_order(edges, a, b, &mut text)?;
    }
    Ok(text)
}

fn orders(alloc: Global, edges: &[Edge], nodes: &[Node]) -> Result<String, AllocError>
    ensures { IfOk result (λ text. string_bytes text ≡ flat_map (order_from edges.now nodes.now) nodes.now) }
{
    let mut text = String::new(alloc);
    for node in nodes {
        let order = order_from(alloc, edges, nodes, node)?;
        text.push_str(order.as_str())?;
    }
    Ok(text)
}

// ---- arrows

fn color(ink: Ink) -> &'static str
    ensures { result.now ≡ color ink }
{
    match ink {
        Ink::ReadsFrom => "#d01010",
        Ink::Coherence => "#2040c0",
        Ink::FromReads => "#d07000",
        Ink::Fence => "#007030",
        Ink::Rule => "#6a2090",
        Ink::Turned => "#c000c0",
    }
}

fn dashes(ink: Ink) -> &'static str
    ensures { result.now ≡ dashes ink }
{
    match ink {
        Ink::Turned => ", style=dashed",
        _ => "",
    }
}

fn reach(is_near: bool) -> &'static str
    ensures { result.now ≡ reach is_near }
{
    if is_near {
        ", weight=20];\n"
    } else {
        ", constraint=false];\n"
    }
}

/// Graphviz finds a place for what stands at an arrow; of those that move nothing it does so afterwards, since within a
/// rank it would fail.
fn label_word(is_near: bool) -> &'static str
    ensures { result.now ≡ label_word is_near }
{
    if is_near {
        " [label=\" "
    } else {
        " [xlabel=\" "
    }
}

fn are_ends(edge: &Edge, a: &Node, b: &Node) -> bool
    ensures { result ≡ are_ends edge.now a.now b.now }
{
    is_next(a, b) && leads(edge, a.name, b.name)
}

fn starts_near(nodes: &[Node], edge: &Edge, a: &Node) -> bool
    ensures { result ≡ starts_near nodes.now edge.now a.now }
{
    nodes.iter().any(|b| are_ends(edge, a, b))
}

/// Does the arrow lead from an operation to its hart's next one?
fn is_near(nodes: &[Node], edge: &Edge) -> bool
    ensures { result ≡ is_near nodes.now edge.now }
{
    nodes.iter().any(|a| starts_near(nodes, edge, a))
}

fn pair_text(alloc: Global, a: OperationName, b: OperationName) -> Result<String, AllocError>
    ensures { IfOk result (λ text. string_bytes text ≡ pair_text a b) }
{
    format!(in alloc; "  \"{}\" -> \"{}\"", a, b)
}

/// How the arrow is drawn.
fn style_text(alloc: Global, nodes: &[Node], edge: &Edge) -> Result<String, AllocError>
    ensures { IfOk result (λ text. string_bytes text ≡ style_text nodes.now edge.now) }
{
    let color = color(edge.ink);
    format!(in alloc;
        "color=\"{}\", fontcolor=\"{}\", penwidth=1.6{}{}",
        color,
        color,
        dashes(edge.ink),
        reach(is_near(nodes, edge))
    )
}

fn edge_text(alloc: Global, nodes: &[Node], edge: &Edge) -> Result<String, AllocError>
    ensures { IfOk result (λ text. string_bytes text ≡ edge_text nodes.now edge.now) }
{
    let pair = pair_text(alloc, edge.from, edge.to)?;
    let label = quoted(alloc, edge.label.as_str())?;
    let style = style_text(alloc, nodes, edge)?;
    format!(in alloc;
        "{}{}{} \", {}",
        pair.as_str(),
        label_word(is_near(nodes, edge)),
        label.as_str(),
        style.as_str()
    )
}

fn arrows(alloc: Global, nodes: &[Node], edges: &[Edge]) -> Result<String, AllocError>
    ensures { IfOk result (λ text. string_bytes text ≡ flat_map (edge_text nodes.now) edges.now) }
{
    let mut text = String::new(alloc);
    for edge in edges {
        let arrow = edge_text(alloc, nodes, edge)?;
        text.push_str(arrow.as_str())?;
    }
    Ok(text)
}

// ---- all of it

const SETTINGS: &str = "\
\"; labelloc=t; fontname=Helvetica; fontsize=14;
  newrank=true; splines=polyline; nodesep=0.9; ranksep=0.65;
  node [shape=box, fontname=Courier, fontsize=11, margin=\"0.1,0.05\"];
  edge [fontname=Helvetica, fontsize=10];
";

fn head(alloc: Global, title: &str) -> Result<String, AllocError>
    ensures { IfOk result (λ text. string_bytes text ≡ head_text title.now) }
{
    let title = quoted(alloc, title)?;
    format!(in alloc; "digraph G {{\n  label=\"{}{}", title.as_str(), SETTINGS)
}

/// The picture in DOT: a box for each operation, those of a hart in a cluster, the i-th of all harts side by side; and
/// the arrows, with program order between neighbours. No text can end its quotes. The nodes stand in the order of the
/// code. The error is want of memory. The cost is cubic in the nodes, and quadratic in them for each arrow.
pub(crate) fn dot_text(
    alloc: Global,
    title: &str,
    nodes: &[Node],
    edges: &[Edge],
) -> Result<String, AllocError>
    ensures { IfOk result (λ text. string_bytes text ≡ dot_text title.now nodes.now edges.now) }
{
    let head = head(alloc, title)?;
    let clusters = clusters(alloc, nodes)?;
    let ranks = ranks(alloc, nodes)?;
    let orders = orders(alloc, edges, nodes)?;
    let arrows = arrows(alloc, nodes, edges)?;
    format!(in alloc;
        "{}{}{}{}{}}}\n",
        head.as_str(),
        clusters.as_str(),
        ranks.as_str(),
        orders.as_str(),
        arrows.as_str()
    )
}
