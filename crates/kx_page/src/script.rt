//! What a page does when someone points at it. It makes no markup of texts.

/// The page's script: choosing steps by pointer and keyboard, and leaving out what isn't asked for.
pub(crate) const SCRIPT: &str = "'use strict';
(() => {
  const at = id => document.getElementById(id);
  const panel = at('chosen'), picked = document.head.appendChild(document.createElement('style'));
  const left = document.head.appendChild(document.createElement('style'));
  let now = -1;
  const part = (name, text) => {
    const made = document.createElement(name);
    made.textContent = text;
    return made;
  };
  const show = number => {
    const row = at('s' + number);
    if (!row) return false;
    panel.textContent = '';
    panel.append(part('h3', 'Step ' + number + ': ' + row.querySelector('b').textContent));
    panel.append(part('p', row.querySelector('span').textContent));
    const rule = row.querySelector('a.rule');
    if (rule) panel.append(rule.cloneNode(true));
    return true;
  };
  const pick = (number, scrolls) => {
    if (!show(number)) return;
    now = number;
    const here = '[href=\"#s' + number + '\"]';
    picked.textContent = here + ' rect{stroke-width:3}' + here + ' circle{r:6}' +
      'g[data-f=\"' + number + '\"],g[data-s=\"' + number + '\"]{--w:3}' +
      '#s' + number + '{background:var(--pick)}';
    if (scrolls) at('s' + number).scrollIntoView({block: 'nearest', inline: 'nearest'});
  };
  const numberOf = target => {
    const step = target.closest && target.closest('a[href], li[id]');
    const found = step && /^#?s(\\d+)$/.exec(step.getAttribute('href') || step.id);
    return found ? Number(found[1]) : -1;
  };
  document.addEventListener('click', event => {
    const number = numberOf(event.target);
    if (number < 0) return;
    event.preventDefault();
    pick(number, false);
  });
  document.addEventListener('focusin', event => {
    const number = numberOf(event.target);
    if (number >= 0) pick(number, false);
  });
  document.addEventListener('mouseover', event => {
    const number = numberOf(event.target);
    if (number >= 0) show(number);
    else if (now >= 0 && event.target.closest && event.target.closest('#run')) show(now);
  });
  document.addEventListener('keydown', event => {
    if (event.target.tagName === 'SELECT' || event.ctrlKey || event.metaKey || event.altKey) return;
    if (event.key === 'ArrowDown' || event.key === 'j') pick(now + 1, true);
    else if (event.key === 'ArrowUp' || event.key === 'k') pick(Math.max(now - 1, 0), true);
    else if (event.key === 'Escape') {
      now = -1;
      picked.textContent = panel.textContent = '';
    } else return;
    event.preventDefault();
  });
  const filters = ['n', 'c', 't'].map(key => at('by-' + key));
  const filter = () => {
    left.textContent = filters.filter(it => it.value !== '').map(it =>
      '.part [data-n]:not([data-' + it.id.slice(3) + '=\"' + it.value + '\"]){opacity:.12}').join('');
  };
  const known = {c: new Set(), t: new Set()};
  for (const row of document.querySelectorAll('li[id]'))
    for (const key of ['c', 't'])
      if (row.dataset[key] !== undefined) known[key].add(Number(row.dataset[key]));
  const add = (select, text, value) => {
    const made = part('option', text);
    made.value = value;
    select.append(made);
  };
  document.querySelectorAll('.names text').forEach((it, number) => add(filters[0], it.textContent, number));
  for (const key of ['c', 't'])
    for (const it of [...known[key]].sort((a, b) => a - b))
      add(at('by-' + key), (key === 'c' ? 'c' : 'producer ') + it, it);
  filters.forEach(it => it.addEventListener('change', filter));
})();
";
