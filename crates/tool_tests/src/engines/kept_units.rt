//! Edits that read their stretch alone: worked scripts and their replies.

use super::check;
use super::tools::{EDITS, REPLIES};
use std::test::Fail;

/// Each script, and what it is answered.
static SCRIPTS: [(&str, &str); 8] = [
    // a label that leads elsewhere
    (EDITS, REPLIES),
    // the first definition of a label counts
    (
        "edit 0 0 5\n[foo]\n\nx\n\n[foo]: /a\nedit 0 0 2\n[foo]: /c\n\nedit 0 2 0\n",
        "ok 0 0 3 0
piece 0 28
<p><a href=\"/a\">foo</a></p>
piece 1 9
<p>x</p>
piece 2 0
ok 0 0 1 1
piece 0 0
piece 1 28
<p><a href=\"/c\">foo</a></p>
ok 0 1 0 1
piece 0 28
<p><a href=\"/a\">foo</a></p>
",
    ),
    // a fence that is not closed any more
    (
        "edit 0 0 5\n```\na\n```\n\n# t\nedit 2 1 0\n",
        "ok 0 0 2 0\npiece 0 27\n<pre><code>a\n</code></pre>\npiece 1 11\n<h1>t</h1>\nok 0 2 1 0\npiece 0 32\n<pre><code>a\n\n# t\n</code></pre>\n",
    ),
    // two lists that become one
    (
        "edit 0 0 3\n- a\n<!-- -->\n- b\nedit 1 1 0\nhtml\n",
        "ok 0 0 3 0
piece 0 22
<ul>
<li>a</li>
</ul>
piece 1 26
<!-- raw HTML omitted -->
piece 2 22
<ul>
<li>b</li>
</ul>
ok 0 3 1 0
piece 0 33
<ul>
<li>a</li>
<li>b</li>
</ul>
html 33
<ul>
<li>a</li>
<li>b</li>
</ul>
",
    ),
    // a paragraph's lines that become a table
    (
        "edit 0 0 4\nfoo\n| a |\n| - |\n| b |\nedit 0 1 0\n",
        "ok 0 0 1 0
piece 0 106
<p>foo</p>
<table>
<thead>
<tr>
<th>a</th>
</tr>
</thead>
<tbody>
<tr>
<td>b</td>
</tr>
</tbody>
</table>
ok 0 1 1 0
piece 0 95
<table>
<thead>
<tr>
<th>a</th>
</tr>
</thead>
<tbody>
<tr>
<td>b</td>
</tr>
</tbody>
</table>
",
    ),
    // a line below a paragraph that makes it a heading
    (
        "edit 0 0 2\nfoo\n# x\nedit 1 0 1\n---\n",
        "ok 0 0 2 0\npiece 0 11\n<p>foo</p>\npiece 1 11\n<h1>x</h1>\nok 0 1 1 0\npiece 0 13\n<h2>foo</h2>\n",
    ),
    // refusals by their numbers
    (
        "edit 0 0 1\na\nedit 9 1 0\nedit 0 0 1\na\rb\nhtml\n",
        "ok 0 0 1 0\npiece 0 9\n<p>a</p>\nrefused OutOfRange 1\nrefused BreakInLine 0\nhtml 9\n<p>a</p>\n",
    ),
    // what only stands between units
    (
        "edit 0 0 3\na\n\nb\nedit 1 1 2\n\n\nedit 0 0 1\n\n",
        "ok 0 0 2 0\npiece 0 9\n<p>a</p>\npiece 1 9\n<p>b</p>\nok 0 1 1 0\npiece 0 9\n<p>a</p>\nok 0 0 0 0\n",
    ),
];

#[test]
fn edits_are_as_worked(rt: HostRuntime) -> Result<(), Fail> {
    let alloc = rt.alloc();
    for (script, want) in SCRIPTS.as_slice() {
        check(&rt, alloc, script, want, "Ok(())")?;
    }
    Ok(())
}
