// What stands in every page (the form of an index page, in the definitions of `Pages`).

// Before the title.
pub(crate) const BEFORE_TITLE: &str = "<!DOCTYPE html>
<html><head>
<meta name=\"referrer\" content=\"no-referrer\" />
<title>Index of ";

// Between title and heading.
pub(crate) const BEFORE_HEADING: &str = "</title>
<style>
table {
border-collapse: separate;
border-spacing: 1.5em 0.25em;
}
h1 {
padding-left: 0.3em;
}
a {
text-decoration: none;
color: blue;
}
.left {
text-align: left;
}
.mono {
font-family: monospace;
}
.mw20 {
min-width: 20em;
}
</style>
</head>
<body>
<h1>Index of ";

// Between heading and rows.
pub(crate) const BEFORE_ROWS: &str = "</h1><table>
<tr>
<th class=\"left mw20\">Name</th>
<th class=\"left\">Last modified</th>
<th>Size</th>
</tr>
<tr><th colspan=\"3\"><hr></th></tr>
<tr>
<td><a href=\"..\">Parent Directory</a></td>
<td>&nbsp;</td>
<td class=\"mono\" align=\"right\">[DIR]    </td>
</tr>
";

// Behind the rows.
pub(crate) const AFTER_ROWS: &str = "<tr><th colspan=\"3\"><hr></th></tr></table></body></html>";

// The heading's link to the root.
pub(crate) const ROOT_LINK: &str = "<a href = \"/\">/</a>";

// What stands in place of a size for what is no regular file.
pub(crate) const NO_SIZE: &str = "[DIR]    ";
