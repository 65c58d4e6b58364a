//! The rules that a page shows. `tools/rules.py` writes this file from docs/RULES.md.

/// The tables, in HTML.
pub(crate) const RULES: &str = "<h3>A batch that arrives</h3>
<table>
<tr id=\"batch-too-large\"><td>too large</td><td>more than 1,048,588 bytes, or a batch that says that it has more</td><td>10, message too large</td></tr>
<tr id=\"batch-unreadable\"><td>unreadable</td><td>the bytes aren't a whole batch: Short, Length, Magic or Crc</td><td>2, corrupt message</td></tr>
<tr id=\"batch-compressed\"><td>compressed</td><td>its records are compressed</td><td>76, unsupported compression type</td></tr>
<tr id=\"batch-not-a-data-batch\"><td>not a data batch</td><td>malformed records; bytes after the batch; a control batch; a batch that is neither plain nor has an id, an epoch and a sequence</td><td>87, invalid record</td></tr>
<tr id=\"batch-old-epoch\"><td>old epoch</td><td>its epoch is below its producer's</td><td>47, invalid producer epoch</td></tr>
<tr id=\"batch-duplicate\"><td>duplicate</td><td>a remembered batch of its epoch has the same first and last sequence</td><td>0 and that batch's offset; nothing is appended</td></tr>
<tr id=\"batch-out-of-order\"><td>out of order</td><td>its first sequence isn't the expected one, or its last would pass 2^31 - 1</td><td>45, out of order sequence number</td></tr>
<tr id=\"batch-earlier-transaction-open\"><td>earlier transaction open</td><td>a transaction of its producer at an earlier epoch is open</td><td>51, concurrent transactions</td></tr>
<tr id=\"batch-too-many-open\"><td>too many open</td><td>it would open a transaction, and 1,024 are open</td><td>51, concurrent transactions</td></tr>
<tr id=\"batch-outside-its-transaction\"><td>outside its transaction</td><td>it isn't transactional, and a transaction of its producer is open</td><td>48, invalid transaction state</td></tr>
<tr id=\"batch-unverified\"><td>unverified</td><td>it would open a transaction here, and the coordinator hasn't said that it lists the partition</td><td>none yet: the coordinator is asked</td></tr>
<tr id=\"batch-closed-offsets-used-up\"><td>closed, offsets used up</td><td>the store failed before, or the end would pass the greatest offset, 2^63 - 1</td><td>56, storage error</td></tr>
<tr id=\"batch\"><td></td><td>memory is refused</td><td>out of memory; nothing is changed</td></tr>
<tr id=\"batch-store-failed\"><td>store failed</td><td>the store's device fails in the append</td><td>56; the partition is closed, and else as before</td></tr>
<tr id=\"batch-appended\"><td>appended</td><td>else</td><td>0 and the old end; the batch is appended there</td></tr>
</table>
<h3>A marker that arrives</h3>
<table>
<tr id=\"marker-coordinator-fenced\"><td>coordinator fenced</td><td>its coordinator epoch is below that of its producer's last marker</td><td>52, transaction coordinator fenced</td></tr>
<tr id=\"marker-already-there\"><td>already there</td><td>its epoch is its producer's, or below it</td><td>0; nothing is appended</td></tr>
<tr id=\"marker-another-transaction-open\"><td>another transaction open</td><td>a transaction of its producer is open at another epoch than the one below the marker's</td><td>48, invalid transaction state</td></tr>
<tr id=\"marker-closed-to-store-failed\"><td>closed to store failed</td><td>as for a batch</td><td>56, or out of memory</td></tr>
<tr id=\"marker-appended\"><td>appended</td><td>else</td><td>0; the marker is appended as a control batch, even if its transaction has no batch here: a late batch of it is then of an old epoch</td></tr>
</table>
<h3>Asking the coordinator</h3>
<table>
<tr id=\"park-without-a-transactional-id\"><td>without a transactional id</td><td>the request names none</td><td>48, invalid transaction state</td></tr>
<tr id=\"park-too-many-parked\"><td>too many parked</td><td>five other requests of its id and epoch are parked</td><td>51, concurrent transactions</td></tr>
<tr id=\"park-parked\"><td>parked</td><td>else</td><td>none yet; the coordinator is asked, each time that the request arrives. A request that is parked already isn't parked twice</td></tr>
</table>
<h3>A client asks for an id and an epoch</h3>
<table>
<tr id=\"init-without-a-transactional-id\"><td>without a transactional id</td><td></td><td>0 with the next id and epoch 0; the id is written down</td></tr>
<tr id=\"init-first-use\"><td>first use</td><td>there is no row</td><td>0 with the next id and epoch 0; the row is empty, its owner the client</td></tr>
<tr id=\"init-below-the-owner\"><td>below the owner</td><td>the client's number is below the owner's</td><td>90, producer fenced</td></tr>
<tr id=\"init-asked-again\"><td>asked again</td><td>it is the owner, and the row is empty</td><td>0 with the row's id and epoch; nothing is appended</td></tr>
<tr id=\"init-not-twice\"><td>not twice</td><td>it is the owner</td><td>48, invalid transaction state</td></tr>
<tr id=\"init-still-preparing\"><td>still preparing</td><td>the row is prepared</td><td>51, concurrent transactions</td></tr>
<tr id=\"init-fences-the-owner\"><td>fences the owner</td><td>the row is ongoing</td><td>51; the transaction is prepared to abort, one epoch higher; the owner stays. The client asks again later</td></tr>
<tr id=\"init-takes-over\"><td>takes over</td><td>else</td><td>0 with the id and the raised epoch; the row is empty, its owner the client</td></tr>
</table>
<h3>A partition asks to be listed</h3>
<table>
<tr id=\"add-next-id\"><td>next id</td><td>the id is the one that is next once the row's markers are answered</td><td>51</td></tr>
<tr id=\"add-unknown-id\"><td>unknown id</td><td>there is no row, or the id is neither its own nor the one before</td><td>49, invalid producer id mapping</td></tr>
<tr id=\"add-epoch-never-given\"><td>epoch never given</td><td>the epoch is 32,767, or the id is the row's own and the epoch above the row's</td><td>47, invalid producer epoch</td></tr>
<tr id=\"add-old-epoch\"><td>old epoch</td><td>the epoch is below the row's, or the id is the one before</td><td>90</td></tr>
<tr id=\"add-preparing\"><td>preparing</td><td>the row is prepared</td><td>51</td></tr>
<tr id=\"add-already-listed\"><td>already listed</td><td>the row is ongoing and lists the partition</td><td>0; nothing is appended</td></tr>
<tr id=\"add-listed\"><td>listed</td><td>else</td><td>0; the row is ongoing and lists the partition, last if it didn't list it; if it wasn't ongoing, its start is the coordinator's clock</td></tr>
</table>
<h3>A client ends its transaction</h3>
<table>
<tr id=\"end-already-ended\"><td>already ended</td><td>the row stands one epoch higher, prepared or complete with this outcome; or the epoch is 32,766, the last of the id before, and the row is complete at epoch 0 with this outcome</td><td>0; if the row is prepared with the id and epoch of the transaction after, and if it is complete with the row's own</td></tr>
<tr id=\"end-ended-otherwise\"><td>ended otherwise</td><td>the same with the other outcome</td><td>48</td></tr>
<tr id=\"end-old-epoch\"><td>old epoch</td><td>the epoch is below the row's, or the id is the one before</td><td>90</td></tr>
<tr id=\"end-preparing\"><td>preparing</td><td>the row is prepared</td><td>51</td></tr>
<tr id=\"end-ends\"><td>ends</td><td>the row is ongoing</td><td>0 with the raised epoch; the row is prepared, one epoch higher; its markers go out</td></tr>
<tr id=\"end-nothing-sent\"><td>nothing sent</td><td>else, and the outcome is abort</td><td>0 with the raised epoch; the row is complete, one epoch higher</td></tr>
<tr id=\"end\"><td></td><td>else</td><td>48</td></tr>
</table>
<h3>Groups</h3>
<table>
<tr id=\"group-join-a-member-already\"><td>join</td><td>a member already</td><td>0 with the present generation; nothing is appended</td></tr>
<tr id=\"group-join-left-or-dropped-before-or-the-group-has-16-members\"><td>join</td><td>left or dropped before, or the group has 16 members</td><td>25, unknown member</td></tr>
<tr id=\"group-join-else\"><td>join</td><td>else</td><td>0; the join is appended</td></tr>
<tr id=\"group-leave-drop-not-a-member\"><td>leave, drop</td><td>not a member</td><td>25</td></tr>
<tr id=\"group-leave-drop-else\"><td>leave, drop</td><td>else</td><td>0; it is appended</td></tr>
<tr id=\"group-offsets-not-a-member\"><td>offsets</td><td>not a member</td><td>25</td></tr>
<tr id=\"group-offsets-the-generation-isn-t-the-present-one\"><td>offsets</td><td>the generation isn't the present one</td><td>22, illegal generation</td></tr>
<tr id=\"group-offsets-else\"><td>offsets</td><td>else</td><td>the answer to their batch</td></tr>
<tr id=\"group-fetch-of-an-offset-a-stable-one-is-asked-for-and-an-open-transaction-has-an-offset-of-this-group-and-input-partition\"><td>fetch of an offset</td><td>a stable one is asked for, and an open transaction has an offset of this group and input partition</td><td>88, unstable offset commit, and -1</td></tr>
<tr id=\"group-fetch-of-an-offset-else\"><td>fetch of an offset</td><td>else</td><td>0 and the committed offset, -1 if there is none</td></tr>
</table>
<h3 id=\"settle\">Markers' replies, expiry, reminders and opening</h3>
<p>A marker's reply of code 0 is noted in memory if its row is prepared at that id and epoch and lists the partition. With the last one the row becomes complete, with no partitions; if that can't be written, the reply isn't noted.</p>
<p>A transaction expires once it has been ongoing for its timeout: the first such row, in the order in which transactional ids were first used, is prepared to abort. A reminder sends the markers not yet answered of every prepared row. Opening the log writes a coordinator epoch one above the last, and sends the markers of every prepared row again.</p>
<h3 id=\"restart\">Stores and restarts</h3>
<p>An append may fail, and has then written nothing or all of its entry. The request is answered 56, the log is as it was, and from then on whatever would append is answered 56; all else goes on. A restart reads the log again, with the entry if it was written, and forgets all else: parked requests, noted markers. A restart that can't read leaves the node as it was, but closed; a coordinator that can't write its new epoch has its log as read, and is closed. If its epochs are used up, a restart changes nothing.</p>
";
