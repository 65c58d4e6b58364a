//! The fixed texts of a page and a diagram. In each hole, an `@`, a number, a value or another fixed
//! text is written.

/// The head of a page: its title, the style of the diagram, the style around it, its title again,
/// how many steps and messages there are, and the form.
pub(crate) const HEAD: &str = "<!DOCTYPE html>
<html lang=\"en\"><head><meta charset=\"utf-8\">
<meta name=\"viewport\" content=\"width=device-width,initial-scale=1\">
<title>@</title>
<style>
@@</style></head>
<body><header><h1>@</h1><p>@ steps, @ messages</p>
@";

/// The choice of what is shown, and what colours and lines mean.
pub(crate) const FORM: &str =
    "<form><label>Node <select id=\"by-n\"><option value=\"\">all</option></select></label>
<label>Client <select id=\"by-c\"><option value=\"\">all</option></select></label>
<label>Transactions of <select id=\"by-t\"><option value=\"\">all</option></select></label></form>
<p class=\"key\"><span><i class=\"o\"></i>open</span><span><i class=\"c\"></i>committed</span><span><i class=\"a\"></i>aborted</span><span><i class=\"n\"></i>no transaction</span><span>dashed: arrived again</span><span>cross: never arrived</span><span>thin: to a client outside, who may have got it</span><span>dotted across a lane: the last stable offset</span><span>keys: arrows or j and k, Escape</span></p></header>
<main><div id=\"run\">
";

/// The head of an image: its width and height, where it begins, and its width and height again.
pub(crate) const IMAGE: &str =
    "<svg xmlns=\"http://www.w3.org/2000/svg\" width=\"@\" height=\"@\" viewBox=\"0 @ @ @\">\n";

/// The end of an image.
pub(crate) const IMAGE_END: &str = "</svg>\n";

/// The head of the names of the lanes, which stay in sight.
pub(crate) const NAMES_HEAD: &str = "<div class=\"names\">";

/// The end of the names of the lanes.
pub(crate) const NAMES_END: &str = "</svg></div>\n";

/// The name of a lane: its place, and the name.
pub(crate) const LANE_NAME: &str = "<text class=\"lane\" x=\"@\" y=\"18\">@</text>\n";

/// The line of a lane: its place, and from where down to where it goes.
pub(crate) const LANE_LINE: &str = "<path class=\"lane\" d=\"M@ @V@\"/>\n";

/// The head of a part of the steps: its height.
pub(crate) const PART_HEAD: &str = "<section class=\"part\" style=\"--h:@px\">\n";

/// The head of the list of a part's rows: the number of the first.
pub(crate) const LIST_HEAD: &str = "</svg>\n<ol start=\"@\">\n";

/// The end of a part of the steps.
pub(crate) const PART_END: &str = "</ol></section>\n";

/// The head of a row.
pub(crate) const ROW_HEAD: &str = "<li";

/// A row: the number of its step, what the step did, and what it took and sent.
pub(crate) const STEP_ROW: &str = " id=\"s@\"><b>@</b> <span>@</span>";

/// The link to the rule by which a step answered: its id, twice.
pub(crate) const RULE_LINK: &str = " <a class=\"rule\" href=\"#@\">@</a>";

/// The end of a row.
pub(crate) const ROW_END: &str = "</li>\n";

/// The attribute that has the lane.
pub(crate) const OF_LANE: &str = " data-n=\"@\"";

/// The attribute that has the client.
pub(crate) const OF_CLIENT: &str = " data-c=\"@\"";

/// The attribute that has the producer id.
pub(crate) const OF_PRODUCER: &str = " data-t=\"@\"";

/// The line from a batch to the marker that ended its transaction: its class, its place, and from
/// where down to where it goes.
pub(crate) const WAITING: &str = "<path class=\"wait @\" d=\"M@ @V@\"/>\n";

/// The head of the link from a step to its row: the class of its mark, that of its transaction, and
/// its number.
pub(crate) const STEP_HEAD: &str = "<a class=\"@@\" href=\"#s@\"";

/// The end of the head of an arrow or of the link from a step.
pub(crate) const HEAD_END: &str = ">";

/// A dot: its place.
pub(crate) const DOT: &str = "<circle r=\"4\" cx=\"@\" cy=\"@\"/>";

/// A box: its place, its width, and how round its corners are.
pub(crate) const BOX: &str = "<rect x=\"@\" y=\"@\" width=\"@\" height=\"18\" rx=\"@\"/>";

/// A line across a lane: its place and its width.
pub(crate) const ACROSS: &str = "<path class=\"across\" d=\"M@ @h@\"/>";

/// What a step did, and the end of its link: its place, and the words.
pub(crate) const STEP_TITLE: &str = "<text x=\"@\" y=\"@\">@</text></a>\n";

/// The last stable offset of a lane from here on: the place and the width of its line, the place of
/// its words, and the offset.
pub(crate) const STABLE: &str =
    "<path class=\"lso\" d=\"M@ @h@\"/><text class=\"lso\" x=\"@\" y=\"@\">LSO @</text>\n";

/// The head of an arrow: the class of its way, that of its transaction, and the steps between which
/// it goes.
pub(crate) const ARROW_HEAD: &str = "<g class=\"@@\" data-f=\"@\" data-s=\"@\"";

/// An arrow: from where to where it goes, its message, the place of its name, and the name.
pub(crate) const ARROW: &str =
    "<path d=\"M@ @L@ @\"/><title>@</title><text class=\"name\" x=\"@\" y=\"@\">@</text></g>\n";

/// What is between the steps and the logs.
pub(crate) const LOGS: &str = "</div>
<aside><div id=\"chosen\">Point at a step, or choose it by a key.</div>
<h2>Logs as they end</h2>
";

/// The head of a log: its name, its last stable offset and its end.
pub(crate) const LOG_HEAD: &str = "<h3>@</h3><p>last stable offset @, end @</p>
<div class=\"log\"><table><tr><th>offset</th><th>batch</th><th>records</th><th>a reader of committed records</th></tr>
";

/// The end of a log's table and the head of its next one.
pub(crate) const NEXT_TABLE: &str = "</table></div>\n<div class=\"log\"><table>\n";

/// A batch: the class of its transaction, its offset, its kind, its records and what a reader of
/// committed records gets.
pub(crate) const BATCH: &str =
    "<tr class=\"@\"><td class=\"k\">@</td><td>@</td><td>@</td><td>@</td></tr>\n";

/// The end of a log.
pub(crate) const LOG_END: &str = "</table></div>\n";

/// The end of a page: the rules, and the script.
pub(crate) const END: &str = "</aside></main>
<section id=\"rules\"><h2>Rules</h2>
@</section>
<script>
@</script></body></html>
";

/// The head of a diagram alone: the title, the style, where the names are, what arrows end in, and
/// where the names are again.
pub(crate) const DIAGRAM_HEAD: &str = "<title>@</title>
<style>@</style>
<rect class=\"back\" x=\"0\" y=\"@\" width=\"100%\" height=\"100%\"/>@<g transform=\"translate(0 @)\">
";

/// The end of the names in a diagram alone.
pub(crate) const DIAGRAM_NAMES_END: &str = "</g>\n";
