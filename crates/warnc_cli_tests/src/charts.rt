//! Runs of `chart` on books. What is expected of bars, marks and refusals is what the rows of `report` say of such
//! books (`books`), and loads are those of a message's pages over its period, in parts of 232,792,560.

use crate::rows::expect_rows;
use std::test::Fail;

const CHART: &str = "
# an alert that takes up a cell, and one that finds no room; the first is stopped, and the cell is free again
in cell,1,1
in write,0,a,1,0,1,en,0,1,0,*,One
in write,1,b,2,0,2,en,0,1,0,*,Two
in stop,3,a,*
args chart --slots 4
run -> 0
out -> <!DOCTYPE html>
past path{stroke:var(--first);stroke-width:4px; -> yes
past .refusal{stroke:var(--refusal)} -> yes
past <p>A run of 4 slots of 1.883 s, 0:00:07 (h:mm:ss).</p> -> yes
past is full.</p> -> yes
out -> <details open id=\"c1-1\">
out -> <summary><h2>Cell 1-1</h2> messages: 1, refused: 1, fullest: 100 % at 0:00:00</summary>
out -> <div><p><b>a</b> 1 0010 <i>high</i> <bdi>One</bdi></p>
out -> <svg viewBox=\"0 0 4 10\" preserveAspectRatio=\"none\"><title>1 0010: slots 0 (0:00:00) to 3 (0:00:05), every slot, \
broadcasts: 3, first shown after 0 (0:00:01)</title>
out -> <rect class=\"f5\" x=\"0\" width=\"3\"/>
out -> <path class=\"whole\" d=\"M0 0h1V9h1V0h1V9\"/>
out -> <path d=\"M1 0v6\"/></svg></div>
out -> <div><p><b>b</b> 2 0020 <span class=\"cause\">refused: BSC capacity exceeded (06)</span></p>
out -> <svg viewBox=\"0 0 4 10\" preserveAspectRatio=\"none\"><title>2 0020: refused at slot 1 (0:00:01)</title>
out -> <path class=\"refusal\" d=\"M1 0v10\"/></svg></div>
out -> <div><p>Reserved load</p>
out -> <svg class=\"loads\" viewBox=\"0 0 4 1008\" preserveAspectRatio=\"none\" role=\"img\"><title>Reserved load</title>
out -> <path class=\"load\" d=\"M0 1008H0V0H3V1008H4V1008z\"/></svg></div>
out -> <div><p>Slot, time</p><p class=\"axis\">
out -> <span style=\"--at:calc(100%*0.00/4)\">0<br>0:00:00</span>
out -> </p></div>
out -> </details>
out -> </body>
out -> </html>

# the second cell alone: at slot 1 the first alert's period isn't over, and the one in its place has started; background
# reserves nothing; the text means nothing to the page
in cell,1,1
in cell,1,2
in write,0,a,4370,0,1,en,2,2,0,*,One
in write,0,b<&>,4371,0,2,en,1,2,0,1-2,Two
in update,1,a,en,2,2,0,*,<script>alert(\"1\")</script> & 'so'
args chart --slots 4 --cell 1-2 --workers 2
run -> 0
past is full.</p> -> yes
out -> <details open id=\"c1-2\">
out -> <summary><h2>Cell 1-2</h2> messages: 3, refused: 0, fullest: 100 % at 0:00:01</summary>
past <b>a</b> 4370 0010 <i>normal</i> <bdi>One</bdi> -> yes
past <rect class=\"f5\" x=\"0\" width=\"1\"/> -> yes
past <b>b&lt;&amp;&gt;</b> 4371 0020 <i>background</i> <bdi>Two</bdi> -> yes
past <rect class=\"f5\" x=\"0\" width=\"4\"/> -> yes
past <i>normal</i> <bdi>&lt;script&gt;alert(&quot;1&quot;)&lt;/script&gt; &amp; &#39;so&#39;</bdi> -> yes
past <rect class=\"f5\" x=\"1\" width=\"3\"/> -> yes
past d=\"M0 1008H0V504H1V0H2V504H4V1008z\" -> yes
past </details> -> yes
out -> </body>
out -> </html>

# the update finds no room until the first alert's period is over at slot 4: till then it holds what it has over that
# one, a quarter of the cell
in cell,1,1
in write,0,a,1,0,1,en,2,4,0,*,One
in write,0,b,2,0,2,en,2,2,0,*,Two
in update,1,a,en,2,2,0,*,Three
args chart --slots 8
run -> 0
past <bdi>Three</bdi> -> yes
past <rect class=\"f5\" x=\"4\" width=\"4\"/> -> yes
past d=\"M0 1008H0V252H1V0H8V1008z\" -> yes
past </html> -> yes

# cells whose sections have the same contents have one, whether they are in turn or not; the overview names the first.
# The first alert takes a quarter of the cell, the second one half of it for two slots from the first whole minute on
in cell,1,1
in cell,1,2
in cell,1,4
in cell,1,3
in cell,2,5
in write,0,a,1,0,1,en,2,4,0,1-1 1-2,One
in write,32,b,2,0,2,en,2,2,1,1-1 1-2,Two
in write,33,c,3,0,3,en,2,2,0,1-1 1-2,Three
args chart --slots 64
run -> 0
past is full.</p> -> yes
out -> <nav aria-label=\"Cells\">
out -> <a href=\"#c1-1\"><b>1-1 and 1 more</b>
out -> <svg class=\"loads\" viewBox=\"0 0 64 1008\" preserveAspectRatio=\"none\" role=\"img\"><title>Reserved load</title>
out -> <path class=\"load\" d=\"M0 1008H0V756H32V252H34V756H64V1008z\"/></svg>
out -> <i>75 % at 0:01:00, refused: 1</i></a>
out -> <a href=\"#c1-4\"><b>1-4 and 2 more</b>
out -> <svg class=\"loads\" viewBox=\"0 0 64 1008\" preserveAspectRatio=\"none\" role=\"img\"><title>Reserved load</title>
out -> <path class=\"load\" d=\"M0 1008H64V1008z\"/></svg>
out -> <i>0 % at 0:00:00, refused: 0</i></a>
out -> </nav>
out -> <details open id=\"c1-1\">
out -> <summary><h2>Cells 1-1 to 1-2, 2 cells</h2> messages: 2, refused: 1, fullest: 75 % at 0:01:00</summary>
past <bdi>One</bdi> -> yes
past <bdi>Two</bdi> -> yes
past refused: BSC capacity exceeded (06) -> yes
past <p class=\"axis\"> -> yes
out -> <span style=\"--at:calc(100%*0.00/64)\">0<br>0:00:00</span>
out -> <span style=\"--at:calc(100%*15.93/64)\">15<br>0:00:30</span>
out -> <span style=\"--at:calc(100%*31.86/64)\">31<br>0:01:00</span>
out -> <span style=\"--at:calc(100%*47.79/64)\">47<br>0:01:30</span>
out -> <span style=\"--at:calc(100%*63.72/64)\">63<br>0:02:00</span>
out -> </p></div>
out -> </details>
out -> <details open id=\"c1-4\">
out -> <summary><h2>Cells 1-4, 1-3, 2-5, 3 cells</h2> messages: 0, refused: 0, fullest: 0 % at 0:00:00</summary>
out -> <div><p>Reserved load</p>
past </details> -> yes
out -> </body>
out -> </html>

# five steps of how often a message is sent: the longest periods of four of them, and the shortest of the fifth
in cell,1,1
in write,0,a,1,0,1,en,2,8,0,*,One
in write,0,b,2,0,2,en,2,16,0,*,Two
in write,0,c,3,0,3,en,2,32,0,*,Three
in write,0,d,4,0,4,en,2,64,0,*,Four
in write,0,e,5,0,5,en,2,65,0,*,Five
args chart --slots 640
run -> 0
past <rect class=\"f5\" x=\"0\" width=\"640\"/> -> yes
past <rect class=\"f4\" x=\"0\" width=\"640\"/> -> yes
past <rect class=\"f3\" x=\"0\" width=\"640\"/> -> yes
past <rect class=\"f2\" x=\"0\" width=\"640\"/> -> yes
past <rect class=\"f1\" x=\"0\" width=\"640\"/> -> yes
past </html> -> yes

# a background alert that seldom finds a free slot is sent less often than its period says, or not at all
in cell,1,1
in write,0,a,1,0,1,en,2,1,60,*,One
in write,0,b,2,0,2,en,1,8,0,*,Two
args chart --slots 64
run -> 0
past <rect class=\"f5\" x=\"0\" width=\"60\"/> -> yes
past <rect class=\"f3\" x=\"0\" width=\"64\"/> -> yes
past </html> -> yes
args chart --slots 60
run -> 0
past <rect class=\"f5\" x=\"0\" width=\"60\"/> -> yes
past <i>background</i> <small>not shown:</small> <bdi>Two</bdi></p> -> yes
past <rect class=\"f1\" x=\"0\" width=\"60\"/> -> yes
out -> <path class=\"whole\" d=\"M0 0\"/>
out -> <path d=\"\"/></svg></div>
past </html> -> yes

# what no phone shows has the text that it was to show: of two pages in UCS-2, the first of which alone is sent, and of
# a message that is stopped at once; a refused order has none
in cell,1,1
in write,0,a,1,0,1,ru,2,4,0,*,Вода поднимается! Идите в школу на холме. <Не ждите> & 'бегите'!
in write,1,b,2,0,2,en,2,4,0,*,Go up!
in stop,1,b,*
in write,1,c,3,0,3,en,2,1,0,*,Full
args chart --slots 1
run -> 0
past is full.</p> -> yes
out -> <details open id=\"c1-1\">
past <b>a</b> 1 0010 <i>normal</i> <small>not shown:</small> <bdi>Вода поднимается! Идите в школу на холме. &lt;Не \
ждите&gt; &amp; &#39;бегите&#39;!</bdi></p> -> yes
past every 4, broadcasts: 0, not shown</title> -> yes
past </html> -> yes
args chart --slots 2
run -> 0
past <b>a</b> 1 0010 <i>normal</i> <bdi>Вода поднимается -> yes
past <b>b</b> 2 0020 <i>normal</i> <small>not shown:</small> <bdi>Go up!</bdi></p> -> yes
past every 4, broadcasts: 0, not shown</title> -> yes
past <b>c</b> 3 0030 <span class=\"cause\">refused: BSC capacity exceeded (06)</span></p> -> yes
past refused at slot 1 (0:00:01)</title> -> yes
past </html> -> yes

# marks a period of one slot apart are 4 px apart in 320 slots of 1,280 px, and closer in 321; those of three slots are
# in 960 and 961
in cell,1,1
in write,0,a,1,0,1,en,0,1,0,*,One
args chart --slots 320
run -> 0
past <i>high</i> <bdi>One</bdi> -> yes
past <rect class=\"f5\" x=\"0\" width=\"320\"/> -> yes
past h1V0h1V9h1V0\"/> -> yes
past </html> -> yes
args chart --slots 321
run -> 0
past <i>high</i> <small>321 broadcasts</small> <bdi>One</bdi> -> yes
past <rect class=\"f5\" x=\"0\" width=\"321\"/> -> yes
out -> <path d=\"M1 0v6\"/></svg></div>
past </html> -> yes
in cell,1,1
in write,0,a,1,0,1,en,0,3,0,*,One
args chart --slots 960
run -> 0
past <i>high</i> <bdi>One</bdi> -> yes
past h3V0h3V9h3V0\"/> -> yes
past </html> -> yes
args chart --slots 961
run -> 0
past <i>high</i> <small>321 broadcasts</small> <bdi>One</bdi> -> yes
past <rect class=\"f5\" x=\"0\" width=\"961\"/> -> yes
out -> <path d=\"M1 0v6\"/></svg></div>
past </html> -> yes

# a slot lasts 24480/13 ms, so slot 1911 begins after 3,598.56 s, slot 1912 after 3,600.44 s and slot 65535 after
# 123,407.4 s; what is said in place of marks is of one broadcast or of several
in cell,1,1
in write,1911,a,1,0,1,en,0,2,0,*,</title> & 'so'
in write,1911,b,2,0,2,en,0,2,0,*,Two
in stop,1911,b,*
args chart --slots 1912
run -> 0
past <p>A run of 1912 slots of 1.883 s, 1:00:00 (h:mm:ss).</p> -> yes
past messages: 2, refused: 0, fullest: 50 % at 0:59:58</summary> -> yes
past <i>high</i> <small>1 broadcast</small> <bdi>&lt;/title&gt; &amp; &#39;so&#39;</bdi></p> -> yes
past <title>1 0010: slots 1911 (0:59:58) to 1912 (1:00:00), every 2, broadcasts: 1, first shown after 1911 (1:00:00)\
</title> -> yes
past <path d=\"M1912 0v6\"/></svg></div> -> yes
past <i>high</i> <small>0 broadcasts</small> <small>not shown:</small> <bdi>Two</bdi></p> -> yes
past <title>2 0020: slots 1911 (0:59:58) to 1911 (0:59:58), every 2, broadcasts: 0, not shown</title> -> yes
past <path d=\"\"/></svg></div> -> yes
past <p class=\"axis\"> -> yes
out -> <span style=\"--at:calc(100%*0.00/1912)\">0<br>0:00:00</span>
out -> <span style=\"--at:calc(100%*955.88/1912)\">955<br>0:30:00</span>
out -> <span style=\"--at:calc(100%*1911.76/1912)\">1911<br>1:00:00</span>
out -> </p></div>
past </html> -> yes

# a run that is a second shorter has a tick every ten minutes
in cell,1,1
args chart --slots 1911
run -> 0
past <p class=\"axis\"> -> yes
out -> <span style=\"--at:calc(100%*0.00/1911)\">0<br>0:00:00</span>
out -> <span style=\"--at:calc(100%*318.62/1911)\">318<br>0:10:00</span>
out -> <span style=\"--at:calc(100%*637.25/1911)\">637<br>0:20:00</span>
out -> <span style=\"--at:calc(100%*955.88/1911)\">955<br>0:30:00</span>
out -> <span style=\"--at:calc(100%*1274.50/1911)\">1274<br>0:40:00</span>
out -> <span style=\"--at:calc(100%*1593.13/1911)\">1593<br>0:50:00</span>
out -> </p></div>
past </html> -> yes

# what each identifier means, and that the numbers beside them mean nothing; a refused order's title says it too
in cell,1,1
in write,0,n4351,4351,0,1,en,2,1024,0,*,A
in write,0,n4352,4352,0,1,en,2,1024,0,*,A
in write,0,n4353,4353,0,1,en,2,1024,0,*,A
in write,0,n4354,4354,0,1,en,2,1024,0,*,A
in write,0,n4355,4355,0,1,en,2,1024,0,*,A
in write,0,n4356,4356,0,1,en,2,1024,0,*,A
in write,0,n4357,4357,0,1,en,2,1024,0,*,A
in write,0,n4369,4369,0,1,en,2,1024,0,*,A
in write,0,n4370,4370,0,1,en,2,1024,0,*,A
in write,0,n4371,4371,0,1,en,2,1024,0,*,A
in write,0,n4372,4372,0,1,en,2,1024,0,*,A
in write,0,n4373,4373,0,1,en,2,1024,0,*,A
in write,0,n4374,4374,0,1,en,2,1024,0,*,A
in write,0,n4375,4375,0,1,en,2,1024,0,*,A
in write,0,n4376,4376,0,1,en,2,1024,0,*,A
in write,0,n4377,4377,0,1,en,2,1024,0,*,A
in write,0,n4378,4378,0,1,en,2,1024,0,*,A
in write,0,n4379,4379,0,1,en,2,1024,0,*,A
in write,0,n4380,4380,0,1,en,2,1024,0,*,A
in write,0,n4381,4381,0,1,en,2,1024,0,*,A
in write,0,n4382,4382,0,1,en,2,1024,0,*,A
in write,0,n4383,4383,0,1,en,2,1024,0,*,A
in write,0,n4384,4384,0,1,en,2,1024,0,*,A
in write,0,n4385,4385,0,1,en,2,1024,0,*,A
in write,0,n4386,4386,0,1,en,2,1024,0,*,A
in write,0,n4387,4387,0,1,en,2,1024,0,*,A
in write,0,n4388,4388,0,1,en,2,1024,0,*,A
in write,0,n4389,4389,0,1,en,2,1024,0,*,A
in write,0,n4390,4390,0,1,en,2,1024,0,*,A
in write,0,n4391,4391,0,1,en,2,1024,0,*,A
in write,0,n4392,4392,0,1,en,2,1024,0,*,A
in write,0,n4393,4393,0,1,en,2,1024,0,*,A
in write,0,n4394,4394,0,1,en,2,1024,0,*,A
in write,0,n4395,4395,0,1,en,2,1024,0,*,A
in write,0,n4396,4396,0,1,en,2,1024,0,*,A
in write,0,n4397,4397,0,1,en,2,1024,0,*,A
in write,0,n4398,4398,0,1,en,2,1024,0,*,A
in write,0,n4399,4399,0,1,en,2,1024,0,*,A
in write,0,n4400,4400,0,1,en,2,1024,0,*,A
in write,0,full,4371,0,2,en,2,1,0,*,A
args chart --slots 1
run -> 0
past is full.</p> -> yes
past <title>4351 0010: slots 0 -> yes
past <title>4352 0010 (ETWS: earthquake): slots 0 -> yes
past <title>4353 0010 (ETWS: tsunami): slots 0 -> yes
past <title>4354 0010 (ETWS: earthquake and tsunami): slots 0 -> yes
past <title>4355 0010 (ETWS: test): slots 0 -> yes
past <title>4356 0010 (ETWS: other): slots 0 -> yes
past <title>4357 0010: slots 0 -> yes
past <title>4369 0010: slots 0 -> yes
past <title>4370 0010 (EU-Alert level 1: presidential): slots 0 -> yes
past <title>4371 0010 (Level 2: extreme, immediate, observed): slots 0 -> yes
past <title>4372 0010 (Level 2: extreme, immediate, likely): slots 0 -> yes
past <title>4373 0010 (Level 3: extreme, expected, observed): slots 0 -> yes
past <title>4374 0010 (Level 3: extreme, expected, likely): slots 0 -> yes
past <title>4375 0010 (Level 3: severe, immediate, observed): slots 0 -> yes
past <title>4376 0010 (Level 3: severe, immediate, likely): slots 0 -> yes
past <title>4377 0010 (Level 3: severe, expected, observed): slots 0 -> yes
past <title>4378 0010 (Level 3: severe, expected, likely): slots 0 -> yes
past <title>4379 0010 (Child abduction: EU-Amber): slots 0 -> yes
past <title>4380 0010 (Test: monthly): slots 0 -> yes
past <title>4381 0010 (Exercise): slots 0 -> yes
past <title>4382 0010 (Operator's own use): slots 0 -> yes
past <title>4383 0010 (EU-Alert level 1: presidential, in an additional language): slots 0 -> yes
past <title>4384 0010 (Level 2: extreme, immediate, observed, in an additional language): slots 0 -> yes
past <title>4385 0010 (Level 2: extreme, immediate, likely, in an additional language): slots 0 -> yes
past <title>4386 0010 (Level 3: extreme, expected, observed, in an additional language): slots 0 -> yes
past <title>4387 0010 (Level 3: extreme, expected, likely, in an additional language): slots 0 -> yes
past <title>4388 0010 (Level 3: severe, immediate, observed, in an additional language): slots 0 -> yes
past <title>4389 0010 (Level 3: severe, immediate, likely, in an additional language): slots 0 -> yes
past <title>4390 0010 (Level 3: severe, expected, observed, in an additional language): slots 0 -> yes
past <title>4391 0010 (Level 3: severe, expected, likely, in an additional language): slots 0 -> yes
past <title>4392 0010 (Child abduction: EU-Amber, in an additional language): slots 0 -> yes
past <title>4393 0010 (Test: monthly, in an additional language): slots 0 -> yes
past <title>4394 0010 (Exercise, in an additional language): slots 0 -> yes
past <title>4395 0010 (Operator's own use, in an additional language): slots 0 -> yes
past <title>4396 0010 (Level 4: public safety, EU-Info): slots 0 -> yes
past <title>4397 0010 (Level 4: public safety, EU-Info, in an additional language): slots 0 -> yes
past <title>4398 0010 (Test: state or local): slots 0 -> yes
past <title>4399 0010 (Test: state or local, in an additional language): slots 0 -> yes
past <title>4400 0010: slots 0 -> yes
past <title>4371 0020 (Level 2: extreme, immediate, observed): refused at slot 0 -> yes
past </html> -> yes

# a part: bars, loads, marks and the axis are cut to it, and only what touches it has a line; a slot lasts 24480/13 ms,
# so slot 10 begins after 18.83 s, slot 12 after 22.60 s and slot 30 after 56.49 s, and 20 s are 10.62 slots
in cell,1,1
in write,0,a,1,0,1,en,2,8,0,*,One
in write,0,b,2,0,2,en,2,8,1,*,Two
in write,12,c,3,0,3,en,2,1,0,*,Three
in write,30,d,4,0,4,en,2,8,0,*,Four
in write,40,e,5,0,5,en,2,1,0,*,Five
args chart --slots 64 --from 10 --to 30
run -> 0
past <p>A run of 64 slots of 1.883 s, 0:02:00 (h:mm:ss). Drawn from slot 10 (0:00:18) to slot 30 (0:00:56).</p> \
-> yes
past is full.</p> -> yes
out -> <details open id=\"c1-1\">
out -> <summary><h2>Cell 1-1</h2> messages: 1, refused: 1, fullest: 13 % at 0:00:18</summary>
out -> <div><p><b>a</b> 1 0010 <i>normal</i> <bdi>One</bdi></p>
out -> <svg viewBox=\"10 0 20 10\" preserveAspectRatio=\"none\"><title>1 0010: slots 0 (0:00:00) to 64 (0:02:00), every 8, \
broadcasts: 8, first shown after 0 (0:00:01)</title>
out -> <rect class=\"f5\" x=\"10\" width=\"20\"/>
out -> <path class=\"whole\" d=\"M0 0h17V9h8V0\"/>
out -> <path d=\"\"/></svg></div>
out -> <div><p><b>c</b> 3 0030 <span class=\"cause\">refused: BSC capacity exceeded (06)</span></p>
out -> <svg viewBox=\"10 0 20 10\" preserveAspectRatio=\"none\"><title>3 0030: refused at slot 12 (0:00:22)</title>
out -> <path class=\"refusal\" d=\"M12 0v10\"/></svg></div>
out -> <div><p>Reserved load</p>
out -> <svg class=\"loads\" viewBox=\"10 0 20 1008\" preserveAspectRatio=\"none\" role=\"img\"><title>Reserved load</title>
out -> <path class=\"load\" d=\"M10 1008H10V882H30V1008z\"/></svg></div>
out -> <div><p>Slot, time</p><p class=\"axis\">
out -> <span style=\"--at:calc(100%*0.62/20)\">10<br>0:00:20</span>
out -> <span style=\"--at:calc(100%*5.93/20)\">15<br>0:00:30</span>
out -> <span style=\"--at:calc(100%*11.24/20)\">21<br>0:00:40</span>
out -> <span style=\"--at:calc(100%*16.55/20)\">26<br>0:00:50</span>
out -> </p></div>
out -> </details>
out -> </body>
out -> </html>
# only one of the edges is given; what begins and ends at an edge has a line
args chart --slots 64 --from 40
run -> 0
past Drawn from slot 40 (0:01:15) to slot 64 (0:02:00).</p> -> yes
past <summary><h2>Cell 1-1</h2> messages: 2, refused: 1, fullest: 25 % at 0:01:15</summary> -> yes
past <path class=\"whole\" d=\"M0 0h41V9h8V0h8V9\"/> -> yes
past <rect class=\"f5\" x=\"40\" width=\"24\"/> -> yes
past <path class=\"refusal\" d=\"M40 0v10\"/></svg></div> -> yes
past </html> -> yes
args chart --slots 64 --to 1
run -> 0
past Drawn from slot 0 (0:00:00) to slot 1 (0:00:01).</p> -> yes
past <summary><h2>Cell 1-1</h2> messages: 2, refused: 0, fullest: 25 % at 0:00:00</summary> -> yes
past <rect class=\"f5\" x=\"0\" width=\"1\"/> -> yes
out -> <path class=\"whole\" d=\"M0 0h1V9\"/>
out -> <path d=\"M1 0v6\"/></svg></div>
past <path class=\"whole\" d=\"M0 0\"/> -> yes
past </html> -> yes
args chart --slots 64 --from 11 --to 11
fails -> 2 warnc: no such cell or part: --cell is as 1-2, --from is before --to, --to at most --slots
args chart --slots 64 --from 12 --to 11 --cell 1-1
fails -> 2 warnc: no such cell or part: --cell is as 1-2, --from is before --to, --to at most --slots
args chart --slots 64 --from 0 --to 65 --network
fails -> 2 warnc: no such cell or part: --cell is as 1-2, --from is before --to, --to at most --slots
args chart --slots 64 --from 64 --group 0
fails -> 2 warnc: no such cell or part: --cell is as 1-2, --from is before --to, --to at most --slots
args chart --slots 64 --to 0
fails -> 2 warnc: no such cell or part: --cell is as 1-2, --from is before --to, --to at most --slots
args chart --slots 64 --from 1:00
usage -> 2 error:
args report --slots 64 --to 1
usage -> 2 error:
args chart --slots 64 --from 1
reads 0 9 -> 3 warnc: read failed
writer 16 1
run -> 3
err -> warnc: write failed
out -> <!DOCTYPE html>

# in a part there are marks, or the number of the broadcasts that are whole in it
in cell,1,1
in write,0,a,1,0,1,en,0,1,0,*,One
args chart --slots 1000 --from 100 --to 601
run -> 0
past <i>high</i> <small>501 broadcasts</small> <bdi>One</bdi> -> yes
past broadcasts: 1000, -> yes
past <rect class=\"f5\" x=\"100\" width=\"501\"/> -> yes
out -> <path d=\"\"/></svg></div>
past </html> -> yes
args chart --slots 1000 --from 100 --to 420
run -> 0
past <i>high</i> <bdi>One</bdi> -> yes
past <rect class=\"f5\" x=\"100\" width=\"320\"/> -> yes
past h1V0h1V9h1V0\"/> -> yes
past </html> -> yes

# a page in German, of a part, with a strip for each of two sections: a message that phones show, one that none shows,
# and an order that is refused
in cell,1,1
in cell,1,2
in cell,1,3
in write,0,a,4371,0,1,en,0,8,0,1-1 1-2,One
in write,0,b,4382,0,2,en,1,8,0,1-1 1-2,Two
in stop,0,b,1-1 1-2
in write,2,c,4394,0,3,en,2,1,0,1-1 1-2,Three
args chart --slots 64 --to 62 --lang de
run -> 0
out -> <!DOCTYPE html>
out -> <html lang=\"de\">
past <title>Warnungen nach Zelle</title> -> yes
past <h1>Warnungen nach Zelle</h1> -> yes
out -> <p>Ein Lauf von 64 Slots (Zeitschlitzen) zu 1,883 s, 0:02:00 (h:mm:ss). Gezeichnet von Slot 0 (0:00:00) bis \
Slot 62 (0:01:56).</p>
past Am roten Rand ist sie voll.</p> -> yes
out -> <nav aria-label=\"Zellen\">
out -> <a href=\"#c1-1\"><b>1-1 + 1 weitere</b>
out -> <svg class=\"loads\" viewBox=\"0 0 62 1008\" preserveAspectRatio=\"none\" role=\"img\"><title>Reservierte Last</title>
out -> <path class=\"load\" d=\"M0 1008H0V882H62V1008z\"/></svg>
out -> <i>13 % um 0:00:00, abgelehnt: 1</i></a>
past </nav> -> yes
out -> <details open id=\"c1-1\">
out -> <summary><h2>Zellen 1-1 bis 1-2, 2 Zellen</h2> Nachrichten: 2, abgelehnt: 1, Spitze: 13 % um 0:00:00</summary>
out -> <div><p><b>a</b> 4371 0010 <i>hoch</i> <bdi>One</bdi></p>
out -> <svg viewBox=\"0 0 62 10\" preserveAspectRatio=\"none\"><title>4371 0010 (Stufe 2: extrem, unmittelbar, beobachtet): \
Slots 0 (0:00:00) bis 64 (0:02:00), alle 8, Aussendungen: 8, zuerst gezeigt nach 0 (0:00:01)</title>
past <i>Hintergrund</i> <small>nicht gezeigt:</small> <bdi>Two</bdi></p> -> yes
past <title>4382 0020 (Eigener Gebrauch des Betreibers): Slots 0 (0:00:00) bis 0 (0:00:00), alle 8, Aussendungen: 0, \
nicht gezeigt</title> -> yes
past <span class=\"cause\">abgelehnt: kein Platz mehr in der Zelle (06)</span></p> -> yes
past <title>4394 0030 (Übung, in weiterer Sprache): abgelehnt bei Slot 2 (0:00:03)</title> -> yes
out -> <path class=\"refusal\" d=\"M2 0v10\"/></svg></div>
out -> <div><p>Reservierte Last</p>
past <div><p>Slot, Zeit</p><p class=\"axis\"> -> yes
past <summary><h2>Zelle 1-3</h2> Nachrichten: 0, abgelehnt: 0, Spitze: 0 % um 0:00:00</summary> -> yes
past </html> -> yes
# one slot, and one broadcast among several slots
in cell,1,1
in write,2000,a,1,0,1,en,2,1,1,*,One
args chart --slots 1 --lang=de
run -> 0
past Ein Lauf von 1 Slot (Zeitschlitz) zu 1,883 s, 0:00:01 (h:mm:ss).</p> -> yes
past </html> -> yes
args chart --lang de --slots 2001
run -> 0
past <i>normal</i> <small>1 Aussendung</small> <bdi>One</bdi></p> -> yes
past bis 2001 (1:02:48), in jedem Slot, Aussendungen: 1, -> yes
past </html> -> yes
args chart --slots 1 --lang en
run -> 0
past <html lang=\"en\"> -> yes
past </html> -> yes
args chart --slots 1 --lang fr
usage -> 2 error:
args chart --slots 1 --lang
usage -> 2 error:

# times of the day, and of the next one
in cell,1,1
in write,0,a,1,0,1,en,2,8,2,*,One
args chart --slots 48 --start 2026-11-28T23:59:30.5Z
run -> 0
past <p>A run of 48 slots of 1.883 s, 0:01:30 (h:mm:ss). Slot 0 begins at 2026-11-28T23:59:30.500Z; times are of \
the day, in UTC.</p> -> yes
past <summary><h2>Cell 1-1</h2> messages: 1, refused: 0, fullest: 13 % at 23:59:30</summary> -> yes
past 1 0010: slots 0 (23:59:30) to 16 (00:00:00), every 8, broadcasts: 2, first shown after 0 (23:59:32)</title> -> yes
past calc(100%*15.66/48)\">15<br>00:00:00</span> -> yes
out -> <span style=\"--at:calc(100%*31.59/48)\">31<br>00:00:30</span>
out -> <span style=\"--at:calc(100%*47.52/48)\">47<br>00:01:00</span>
past </html> -> yes
args chart --slots 1 --lang de --start=1970-01-01T00:00:00Z --from 0
run -> 0
past Slot 0 beginnt um 1970-01-01T00:00:00.000Z; Zeiten sind Tageszeiten in UTC. Gezeichnet von Slot 0 (00:00:00) bis \
Slot 1 (00:00:01).</p> -> yes
past </html> -> yes
args chart --slots 48 --start 18:30
fails -> 2 warnc: no such time: --start is as 2026-11-28T20:00:00Z, from 1970 to 2105

# cells that look the same in a part have one section there
in cell,1,1
in cell,1,2
in cell,1,3
in write,0,a,1,0,1,en,2,8,0,*,One
in write,0,b,2,0,2,en,2,8,1,1-2,Two
in write,20,c,3,0,3,en,2,8,1,1-3,Three
args chart --slots 64 --from 10 --to 30
run -> 0
past <nav aria-label=\"Cells\"> -> yes
out -> <a href=\"#c1-1\"><b>1-1 and 1 more</b>
out -> <svg class=\"loads\" viewBox=\"10 0 20 1008\" preserveAspectRatio=\"none\" role=\"img\"><title>Reserved load</title>
out -> <path class=\"load\" d=\"M10 1008H10V882H30V1008z\"/></svg>
out -> <i>13 % at 0:00:18, refused: 0</i></a>
out -> <a href=\"#c1-3\"><b>1-3</b>
out -> <svg class=\"loads\" viewBox=\"10 0 20 1008\" preserveAspectRatio=\"none\" role=\"img\"><title>Reserved load</title>
out -> <path class=\"load\" d=\"M10 1008H10V882H20V756H28V882H30V1008z\"/></svg>
out -> <i>25 % at 0:00:37, refused: 0</i></a>
out -> </nav>
past <summary><h2>Cells 1-1 to 1-2, 2 cells</h2> messages: 1, refused: 0, fullest: 13 % at 0:00:18</summary> -> yes
past <summary><h2>Cell 1-3</h2> messages: 2, refused: 0, fullest: 25 % at 0:00:37</summary> -> yes
past </html> -> yes

# a cell that the book doesn't have, and a book without cells
in cell,1,1
args chart --slots 4 --cell=1-2
run -> 0
past is full.</p> -> yes
out -> </body>
out -> </html>
args chart --slots 1
in-none
run -> 0
past A run of 1 slot of 1.883 s, 0:00:01 (h:mm:ss) -> yes
past is full.</p> -> yes
out -> </body>
out -> </html>
args chart --slots 65535
in-none
run -> 0
past A run of 65535 slots of 1.883 s, 34:16:47 (h:mm:ss) -> yes
past </html> -> yes

in cell,1
fails -> 1 warnc: row 1: columns
in cell,1,1
args chart --slots 2
reads 0 9 -> 3 warnc: read failed
writer 16 1
run -> 3
err -> warnc: write failed
out -> <!DOCTYPE html>
args chart --slots 4 --cell 1
fails -> 2 warnc: no such cell: --cell is as 1-2
args chart --slots 4 --cell 1-2-3
fails -> 2 warnc: no such cell: --cell is as 1-2
args chart --slots 4 --cell 1-65536
fails -> 2 warnc: no such cell: --cell is as 1-2
args chart --cell 1-2
usage -> 2 error:
";

#[test]
fn books_give_charts(rt: HostRuntime) -> Result<(), Fail> {
    expect_rows(&rt, CHART, 504)
}
